//! Lines fed one after another, and the tables that they make.
use crate::made::row_text;
use ls_line::{LineRefused, read};
use ls_mirror::{Client, Keyed, MirrorRefused, Table};
use ls_value::{NoMemory, Row};
use std::alloc::Global;
use std::test::Fail;

/// The words of a row that may be missing.
fn some_row(alloc: Global, row: Option<&Row>) -> Result<String, NoMemory> {
    match row {
        Some(row) => row_text(alloc, row),
        None => Ok(String::from_str(alloc, "-")?),
    }
}

/// What feeding answered, in words.
fn told(alloc: Global, answer: Result<(), MirrorRefused>) -> Result<String, NoMemory> {
    let word = match answer {
        Ok(()) => "ok",
        Err(MirrorRefused::Unknown { sub, item }) => {
            return Ok(format!(in alloc; "unknown {sub} {item}")?);
        }
        Err(MirrorRefused::BadFields) => "bad",
        Err(MirrorRefused::NoMemory) => "memory",
    };
    Ok(String::from_str(alloc, word)?)
}

/// The last row of an item with its counts of updates and of lost ones.
fn table_text(alloc: Global, table: &Table) -> Result<String, NoMemory> {
    let (updates, lost) = (table.updates, table.lost);
    let row = some_row(alloc, table.last.as_ref())?;
    Ok(format!(in alloc; "{row} {updates} {lost}")?)
}

/// The rows of the keys a and b of a table, and how many keys it has.
fn keys_text(alloc: Global, table: &Table) -> Result<String, NoMemory> {
    let count = table.keys.len();
    let a = some_row(alloc, table.keys.get("a"))?;
    let b = some_row(alloc, table.keys.get("b"))?;
    Ok(format!(in alloc; "a {a}; b {b}; {count}")?)
}

/// The table of an item, if there is one.
fn item_text(alloc: Global, client: &Client, sub: u32, item: u32) -> Result<String, NoMemory> {
    match client.table(sub, item) {
        Some(table) => table_text(alloc, table),
        None => Ok(String::from_str(alloc, "none")?),
    }
}

/// The table of the first item of subscription 1 and its keys, if there is one.
fn keyed_text(alloc: Global, client: &Client) -> Result<String, NoMemory> {
    let Some(table) = client.table(1, 1) else {
        return Ok(String::from_str(alloc, "none")?);
    };
    let last = table_text(alloc, table)?;
    let keys = keys_text(alloc, table)?;
    Ok(format!(in alloc; "{last}; {keys}")?)
}

/// The answer to a line, in words.
fn fed(alloc: Global, client: &mut Client, line: &str) -> Result<String, LineRefused> {
    let line = read(alloc, line.as_bytes())?;
    Ok(told(alloc, client.feed(&line))?)
}

/// A case in words: a line, an item of a subscription, the answer to the line, and the item's table after it.
fn item_case(
    alloc: Global,
    client: &Client,
    line: &str,
    place: (u32, u32),
    answer: &str,
) -> Result<String, NoMemory> {
    let (sub, item) = place;
    let table = item_text(alloc, client, sub, item)?;
    Ok(format!(in alloc; "{line} > {sub} > {item} > {answer} > {table}")?)
}

/// Feeds a case's line. Answers the case as it is then, which is the same where it holds.
fn item_fed(alloc: Global, client: &mut Client, case: &str) -> Result<String, LineRefused> {
    let mut parts = case.split(" > ");
    let line = parts.next().unwrap_or("");
    let sub = parts.next().unwrap_or("").parse::<u32>().unwrap_or(0);
    let item = parts.next().unwrap_or("").parse::<u32>().unwrap_or(0);
    let answer = fed(alloc, client, line)?;
    Ok(item_case(alloc, client, line, (sub, item), answer.as_str())?)
}

/// A case in words: a line, the answer to it, and the table of the first item of subscription 1 after it, with its
/// keys.
fn keyed_case(
    alloc: Global,
    client: &Client,
    line: &str,
    answer: &str,
) -> Result<String, NoMemory> {
    let table = keyed_text(alloc, client)?;
    Ok(format!(in alloc; "{line} > {answer} > {table}")?)
}

/// Feeds a case's line. Answers the case as it is then, which is the same where it holds.
fn keyed_fed(alloc: Global, client: &mut Client, case: &str) -> Result<String, LineRefused> {
    let line = case.split(" > ").next().unwrap_or("");
    let answer = fed(alloc, client, line)?;
    Ok(keyed_case(alloc, client, line, answer.as_str())?)
}

/// A line, a subscription and an item, the answer to the line, and the item's table after it.
const TABLES: &str = "\
EOS,1,1 > 1 > 1 > unknown 1 1 > none
UNSUB,1 > 1 > 1 > unknown 1 0 > none
CONF,1,unlimited,filtered > 1 > 1 > unknown 1 0 > none
SUBOK,3,2,3 > 3 > 1 > ok > - 0 0
CONF,3,2.0,filtered > 3 > 2 > ok > - 0 0
U,3,1,20:00:33|3.04|# > 3 > 1 > ok > 20:00:33|3.04|# 1 0
U,3,1,|3.07| > 3 > 1 > ok > 20:00:33|3.07|# 2 0
U,3,1,^2|$ > 3 > 1 > ok > 20:00:33|3.07| 3 0
U,3,2,^3 > 3 > 2 > ok > #|#|# 1 0
U,3,2,a|b > 3 > 2 > bad > #|#|# 1 0
U,3,2,a|b|c|d > 3 > 2 > bad > #|#|# 1 0
U,3,2,a|b|%FF > 3 > 2 > bad > #|#|# 1 0
U,3,3,a|b|c > 3 > 3 > unknown 3 3 > none
U,4,1,a|b|c > 4 > 1 > unknown 4 1 > none
OV,3,2,7 > 3 > 2 > ok > #|#|# 1 7
OV,3,2,5 > 3 > 2 > ok > #|#|# 1 12
OV,3,3,5 > 3 > 2 > unknown 3 3 > #|#|# 1 12
EOS,3,1 > 3 > 1 > ok > 20:00:33|3.07| 3 0
CS,3,1 > 3 > 1 > ok > 20:00:33|3.07| 3 0
U,3,1,x|| > 3 > 1 > ok > x|3.07| 4 0
PROBE > 3 > 1 > ok > x|3.07| 4 0
END,31,Destroyed by request > 3 > 1 > ok > x|3.07| 4 0
SUBOK,1,1,1 > 3 > 2 > ok > #|#|# 1 12
U,1,1,1 > 1 > 1 > ok > 1 1 0
U,1,1, > 1 > 1 > ok > 1 2 0
SUBOK,3,1,1 > 3 > 1 > ok > - 0 0
U,3,1, > 3 > 1 > ok > # 1 0
EOS,3,2 > 3 > 2 > unknown 3 2 > none
UNSUB,3 > 3 > 1 > ok > none
UNSUB,3 > 1 > 1 > unknown 3 0 > 1 2 0
CS,3,1 > 1 > 1 > unknown 3 1 > 1 2 0
";

#[test]
fn tables_are_of_the_lines(rt: HostRuntime) -> Result<(), Fail> {
    let mut client = Client::new(rt.alloc())?;
    for case in TABLES.lines() {
        assert!(rt;
            item_fed(rt.alloc(), &mut client, case)?.as_str() == case,
            "{case}"
        );
    }
    Ok(())
}

/// A line, the answer to it, and the table of the first item of subscription 1 after it, with its keys.
const KEYS: &str = "\
SUBCMD,1,1,4,1,2 > ok > - 0 0; a -; b -; 0
U,1,1,a|ADD|1|9 > ok > a|ADD|1|9 1 0; a a|#|1|9; b -; 1
EOS,1,1 > ok > a|ADD|1|9 1 0; a a|#|1|9; b -; 1
U,1,1,|UPDATE|3| > ok > a|UPDATE|3|9 2 0; a a|#|3|9; b -; 1
U,1,1,b|ADD||# > ok > b|ADD|3|# 3 0; a a|#|3|9; b b|#|3|#; 2
U,1,1,#|ADD|| > bad > b|ADD|3|# 3 0; a a|#|3|9; b b|#|3|#; 2
U,1,1,|#|| > bad > b|ADD|3|# 3 0; a a|#|3|9; b b|#|3|#; 2
U,1,1,|GO|| > bad > b|ADD|3|# 3 0; a a|#|3|9; b b|#|3|#; 2
U,1,1,|add|| > bad > b|ADD|3|# 3 0; a a|#|3|9; b b|#|3|#; 2
U,1,1,a|DELETE|#| > ok > a|DELETE|#|# 4 0; a -; b b|#|3|#; 1
U,1,1,^4 > ok > a|DELETE|#|# 5 0; a -; b b|#|3|#; 1
U,1,1,|UPDATE|5| > ok > a|UPDATE|5|# 6 0; a a|#|5|#; b b|#|3|#; 2
CS,1,1 > ok > a|UPDATE|5|# 6 0; a -; b -; 0
U,1,1,b|ADD|^2 > ok > b|ADD|5|# 7 0; a -; b b|#|5|#; 1
SUBCMD,1,1,2,2,3 > ok > - 0 0; a -; b -; 0
U,1,1,a|b > bad > - 0 0; a -; b -; 0
";

#[test]
fn keys_follow_their_commands(rt: HostRuntime) -> Result<(), Fail> {
    let mut client = Client::new(rt.alloc())?;
    for case in KEYS.lines() {
        assert!(rt;
            keyed_fed(rt.alloc(), &mut client, case)?.as_str() == case,
            "{case}"
        );
    }
    Ok(())
}

/// Sets a key's row, which has so many nulls.
fn set(alloc: Global, keyed: &mut Keyed, key: &str, fields: usize) -> Result<(), NoMemory> {
    let row = Row::nulls(alloc, fields)?;
    keyed.set(String::from_str(alloc, key)?, row)?;
    Ok(())
}

#[test]
fn a_key_has_its_last_row(rt: HostRuntime) -> Result<(), Fail> {
    let alloc = rt.alloc();
    let mut keyed = Keyed::new(alloc);
    assert!(rt; keyed.is_empty());
    for (key, fields) in [("a", 1), ("b", 2), ("a", 3)] {
        set(alloc, &mut keyed, key, fields)?;
    }
    assert!(rt; some_row(alloc, keyed.get("a"))?.as_str() == "#|#|#");
    keyed.remove("a");
    assert!(rt; keyed.len() == 1);
    keyed.clear();
    assert!(rt; keyed.is_empty());
    Ok(())
}

//! Each public call once. A side has nothing that a program could look at: what it knows stands in contracts alone.
use ls_pair::Tie;
use ls_value::NoMemory;
use std::alloc::Global;
use std::test::Fail;

/// Whether `start`, `sign`, `agree` and `pass` come to their ends.
fn is_passed(alloc: Global) -> Result<bool, NoMemory> {
    let (tie, mut item, mut session) = Tie::<u64>::start(alloc)?;
    let sign = tie.sign(&mut item);
    tie.agree(&mut item, &mut session);
    tie.pass(&mut item, &mut session, &7);
    tie.pass(&mut item, &mut session, &8);
    tie.agree(&mut item, &mut session);
    drop(sign);
    Ok(true)
}

#[test]
fn two_cuts_are_passed(rt: HostRuntime) -> Result<(), Fail> {
    assert!(rt; is_passed(rt.alloc()) == Ok(true));
    Ok(())
}

//! Scripts of the greatest sizes, and what they print.
use std::alloc::Global;
use std::test::Fail;

/// A text that is repeated for each number from one on, up to before another. In it `#` stands for the number, `>` for
/// its double and `<` for the number before that.
pub(crate) type Part = (&'static str, u32, u32);

/// A script, and what it prints.
pub(crate) type Long = (&'static [Part], &'static [Part]);

/// 300 rows in mode RAW, each enqueued at once: of the 300, those past 256 are lost, and a line says so.
pub(crate) const RAW_300: Long = (
    &[
        ("item q MERGE x\nopen c\nadd c 1 q x RAW\n", 0, 1),
        ("pub 1 # q x=#\nenq c 1 1\n", 1, 301),
        ("take c 300\n", 0, 1),
    ],
    &[
        ("c:REQOK,3\n", 0, 1),
        ("-no #\n-moved #\n", 1, 301),
        (
            "c:CONOK,S1,50000,5000,*\nc:SERVNAME,tlcpd\nc:CONS,unlimited\n",
            0,
            1,
        ),
        (
            "c:SUBOK,1,1,1\nc:CONF,1,unlimited,unfiltered\nc:OV,1,1,44\n",
            0,
            1,
        ),
        ("c:U,1,1,#\n", 45, 301),
        ("-idle\n", 0, 1),
    ],
);

/// 256 rows in mode RAW, none of which is lost.
pub(crate) const RAW_256: Long = (
    &[
        ("item q MERGE x\nopen c\nadd c 1 q x RAW\n", 0, 1),
        ("pub 1 # q x=#\nenq c 1 1\n", 1, 257),
        ("take c 300\n", 0, 1),
    ],
    &[
        ("c:REQOK,3\n", 0, 1),
        ("-no #\n-moved #\n", 1, 257),
        (
            "c:CONOK,S1,50000,5000,*\nc:SERVNAME,tlcpd\nc:CONS,unlimited\n",
            0,
            1,
        ),
        ("c:SUBOK,1,1,1\nc:CONF,1,unlimited,unfiltered\n", 0, 1),
        ("c:U,1,1,#\n", 1, 257),
        ("-idle\n", 0, 1),
    ],
);

/// A key more than a table of mode COMMAND has, a snapshot of all of them, and 1,000 lines in one step.
pub(crate) const KEYS: Long = (
    &[
        ("item t COMMAND key,command\n", 0, 1),
        ("pub 1 # t key=#&command=ADD\n", 1001, 2026),
        (
            "open c\nadd c 1 t key,command COMMAND snapshot=true\n",
            0,
            1,
        ),
        ("take c 1000\ntake c 1000\n", 0, 1),
    ],
    &[
        ("-no #\n", 1, 1025),
        ("-toomanykeys\nc:REQOK,1028\n", 0, 1),
        (
            "c:CONOK,S1,50000,5000,*\nc:SERVNAME,tlcpd\nc:CONS,unlimited\n",
            0,
            1,
        ),
        (
            "c:SUBCMD,1,1,2,1,2\nc:CONF,1,unlimited,filtered\nc:U,1,1,1001|ADD\n",
            0,
            1,
        ),
        ("c:U,1,1,#|\n", 1002, 2025),
        ("c:EOS,1,1\n-idle\n", 0, 1),
    ],
);

/// 256 rows in mode RAW, which together are longer than what is held back within a piece.
pub(crate) const WIDE: Long = (
    &[
        ("item q MERGE x\nopen c\nadd c 1 q x RAW\n", 0, 1),
        (
            "pub 1 # q x=\
            ####################################################################################################\
            \nenq c 1 1\n",
            1,
            257,
        ),
        ("take c 300\ntake c\n", 0, 1),
    ],
    &[
        ("c:REQOK,3\n", 0, 1),
        ("-no #\n-moved #\n", 1, 257),
        (
            "c:CONOK,S1,50000,5000,*\nc:SERVNAME,tlcpd\nc:CONS,unlimited\n",
            0,
            1,
        ),
        ("c:SUBOK,1,1,1\nc:CONF,1,unlimited,unfiltered\n", 0, 1),
        (
            "c:U,1,1,\
            ####################################################################################################\n",
            1,
            257,
        ),
        ("-idle\n-idle\n", 0, 1),
    ],
);

/// 1,000 keys that came and went, so that one turn passes 1,000 cuts that give no line.
pub(crate) const SILENT: Long = (
    &[
        (
            "item t COMMAND key,command\nopen c\nadd c 1 t key,command COMMAND\ntake c 9\n",
            0,
            1,
        ),
        (
            "pub 1 < t key=#&command=ADD\npub 1 > t key=#&command=DELETE\nenq c 1 1 2\n",
            1,
            1001,
        ),
        ("take c\n", 0, 1),
    ],
    &[
        (
            "c:REQOK,3\nc:CONOK,S1,50000,5000,*\nc:SERVNAME,tlcpd\nc:CONS,unlimited\n",
            0,
            1,
        ),
        (
            "c:SUBCMD,1,1,2,1,2\nc:CONF,1,unlimited,filtered\n-idle\n",
            0,
            1,
        ),
        ("-no <\n-no >\n-moved <\n-moved >\n", 1, 1001),
        ("-idle\n", 0, 1),
    ],
);

/// 64 events ahead of a slot, and one more.
pub(crate) const BACKLOG: Long = (
    &[
        ("item q MERGE x\nopen c\nadd c 1 q x MERGE\n", 0, 1),
        ("pub 1 # q x=#\n", 1, 66),
        ("enq c 1 1\npub 1 65 q x=65\n", 0, 1),
    ],
    &[
        ("c:REQOK,3\n", 0, 1),
        ("-no #\n", 1, 65),
        ("-backlog 1\n-moved 1\n-no 65\n", 0, 1),
    ],
);

/// A text of 4,096 bytes, and one of 4,097.
pub(crate) const BYTES: Long = (
    &[
        ("item q MERGE x\npub 1 1 q x=", 0, 1),
        ("a", 0, 4096),
        ("\npub 1 2 q x=", 0, 1),
        ("a", 0, 4097),
    ],
    &[("-no 1\n-toolong 4097\n", 0, 1)],
);

/// Appends what a byte of a part stands for.
fn push(alloc: Global, text: &mut Vec<u8>, byte: u8, number: u32) -> Result<(), Fail> {
    let double = u64::from(number) * 2;
    let shown = match byte {
        b'#' => u64::from(number),
        b'<' => double.saturating_sub(1),
        b'>' => double,
        _ => return Ok(text.push(byte)?),
    };
    let digits = format!(in alloc; "{shown}")?;
    Ok(text.extend_from_slice(digits.as_bytes())?)
}

/// Appends a part.
fn append(alloc: Global, text: &mut Vec<u8>, part: Part) -> Result<(), Fail> {
    let (template, from, end) = part;
    for number in from..end {
        for byte in template.as_bytes() {
            push(alloc, text, *byte, number)?;
        }
    }
    Ok(())
}

/// The text of these parts.
pub(crate) fn text_of(alloc: Global, parts: &[Part]) -> Result<Vec<u8>, Fail> {
    let mut text = Vec::new(alloc);
    for part in parts {
        append(alloc, &mut text, *part)?;
    }
    Ok(text)
}

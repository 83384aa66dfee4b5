//! Worked scripts of all modes: what each is about, how its run ends, and what it prints.
use ls_run::Status;

/// A script, how its run ends, and what it prints.
pub(crate) type Row = (&'static [u8], Status, &'static [u8]);

/// A quote of two fields, published after the subscription, and given.
pub(crate) const QUOTE: &[u8] = b"item quote MERGE last,time
open c
add c 1 quote last,time MERGE
pub 1 1 quote last=3.04&time=20:00:33
enq c 1 1
take c 9
";

/// What it prints.
pub(crate) const QUOTE_PRINTED: &[u8] = b"c:REQOK,3
-no 1
-moved 1
c:CONOK,S1,50000,5000,*
c:SERVNAME,tlcpd
c:CONS,unlimited
c:SUBOK,1,1,2
c:CONF,1,unlimited,filtered
c:U,1,1,3.04|20:00:33
-idle
";

/// Scripts whose lines are all done.
pub(crate) const WORKED: [Row; 17] = [
    (QUOTE, Status::Ok, QUOTE_PRINTED),
    // A value that goes and comes back within one cut makes no line.
    (
        b"item q MERGE x\nopen c\nadd c 1 q x MERGE\npub 1 1 q x=A\nenq c 1 1\ntake c 9\npub 1 2 q x=B\n\
          pub 1 3 q x=A\nenq c 1 1 2\ntake c",
        Status::Ok,
        b"c:REQOK,3\n-no 1\n-moved 1\nc:CONOK,S1,50000,5000,*\nc:SERVNAME,tlcpd\nc:CONS,unlimited\n\
          c:SUBOK,1,1,1\nc:CONF,1,unlimited,filtered\nc:U,1,1,A\n-idle\n-no 2\n-no 3\n-moved 2\n-moved 3\n\
          -idle\n",
    ),
    // A seq that comes again, a slot that is up to date, and a field that was never set.
    (
        b"# two fields\n\nitem q MERGE x,y\nopen c\nadd c 7 q y,x MERGE\npub 1 5 q x=1\npub 1 5 q x=1\n\
          enq c 7 1 5\nenq c 7 2\nenq c 8 1\ntake c 9",
        Status::Ok,
        b"c:REQOK,5\n-no 1\n-repeated 5\n-moved 1\n-uptodate\n-noslot\n-noslot\nc:CONOK,S1,50000,5000,*\n\
          c:SERVNAME,tlcpd\nc:CONS,unlimited\nc:SUBOK,7,1,2\nc:CONF,7,unlimited,filtered\nc:U,7,1,#|1\n\
          -idle\n",
    ),
    // A value that a text form escapes.
    (
        b"item q MERGE x\nopen c\nadd c 1 q x MERGE\npub 1 1 q x=%23\nenq c 1 1\ntake c 9\n",
        Status::Ok,
        b"c:REQOK,3\n-no 1\n-moved 1\nc:CONOK,S1,50000,5000,*\nc:SERVNAME,tlcpd\nc:CONS,unlimited\n\
          c:SUBOK,1,1,1\nc:CONF,1,unlimited,filtered\nc:U,1,1,%23\n-idle\n",
    ),
    // An event that was published before the subscription.
    (
        b"item q MERGE x\npub 1 1 q x=%23\nopen c\nadd c 1 q x MERGE\nenq c 1 1\ntake c 9\n",
        Status::Ok,
        b"-no 1\nc:REQOK,4\n-uptodate\nc:CONOK,S1,50000,5000,*\nc:SERVNAME,tlcpd\nc:CONS,unlimited\n\
          c:SUBOK,1,1,1\nc:CONF,1,unlimited,filtered\n-idle\n",
    ),
    // A name that is no request.
    (
        b"conn w ws\nreq w nonsense\nreq w wsok\nreq w control LS_reqId=7\n\
          req w create_session LS_polling=true\ntake w\nenq w 1 1\n",
        Status::Ok,
        b"w:ERROR,65,Malformed request\nw:WSOK\nw:REQERR,7,65,Malformed request\n\
          w:CONERR,65,Malformed request\n-none\n-noslot\n",
    ),
    // A session and a subscription by requests.
    (
        b"set A\nitem q MERGE x,y\nconn w ws\n\
          req w create_session LS_adapter_set=A&LS_keepalive_millis=900\n\
          req w control LS_reqId=r&LS_session=S1&LS_op=add&LS_subId=4&LS_mode=MERGE&LS_group=q\
          &LS_schema=y+x&LS_snapshot=true\n\
          take w 9\n",
        Status::Ok,
        b"w:REQOK,r\nw:CONOK,S1,50000,1000,*\nw:SERVNAME,tlcpd\nw:CONS,unlimited\nw:SUBOK,4,1,2\n\
          w:CONF,4,unlimited,filtered\n-idle\n",
    ),
    // Mode RAW tells an equal row again, in an empty list of fields.
    (
        b"item q MERGE x\nopen c\nadd c 1 q x RAW\npub 1 1 q x=1\npub 1 2 q x=1\nenq c 1 1 2\ntake c 9\n",
        Status::Ok,
        b"c:REQOK,3\n-no 1\n-no 2\n-moved 1\n-moved 2\nc:CONOK,S1,50000,5000,*\nc:SERVNAME,tlcpd\n\
          c:CONS,unlimited\nc:SUBOK,1,1,1\nc:CONF,1,unlimited,unfiltered\nc:U,1,1,1\nc:U,1,1,\n-idle\n",
    ),
    // A MERGE buffer of size 2.
    (
        b"item s MERGE a,b,c\nopen c\nadd c 1 s a,b,c MERGE buffer=2\npub 1 1 s a=1\npub 1 2 s b=2\n\
          pub 1 3 s c=3\nenq c 1 1 3\ntake c 9\n",
        Status::Ok,
        b"c:REQOK,3\n-no 1\n-no 2\n-no 3\n-moved 1\n-moved 2\n-moved 3\nc:CONOK,S1,50000,5000,*\n\
          c:SERVNAME,tlcpd\nc:CONS,unlimited\nc:SUBOK,1,1,3\nc:CONF,1,unlimited,filtered\nc:U,1,1,1|2|#\n\
          c:U,1,1,||3\n-idle\n",
    ),
    // A DISTINCT buffer of size 2 keeps the last two.
    (
        b"item d DISTINCT m\nopen c\nadd c 1 d m DISTINCT buffer=2\npub 1 1 d m=1\npub 1 2 d m=2\n\
          pub 1 3 d m=3\npub 1 4 d m=4\npub 1 5 d m=5\nenq c 1 1 5\ntake c 9\n",
        Status::Ok,
        b"c:REQOK,3\n-no 1\n-no 2\n-no 3\n-no 4\n-no 5\n-moved 1\n-moved 2\n-moved 3\n-moved 4\n-moved 5\n\
          c:CONOK,S1,50000,5000,*\nc:SERVNAME,tlcpd\nc:CONS,unlimited\nc:SUBOK,1,1,1\n\
          c:CONF,1,unlimited,filtered\nc:U,1,1,4\nc:U,1,1,5\n-idle\n",
    ),
    // A DISTINCT snapshot of one row, its end, and a Clear.
    (
        b"item d DISTINCT m\npub 1 1 d m=1\npub 1 2 d m=2\nopen c\nadd c 1 d m DISTINCT snapshot=1\n\
          clear 1 3 d\npub 1 4 d m=4\ntake c 7\nenq c 1 1 2\ntake c 9\n",
        Status::Ok,
        b"-no 1\n-no 2\nc:REQOK,5\n-no 3\n-no 4\nc:CONOK,S1,50000,5000,*\nc:SERVNAME,tlcpd\n\
          c:CONS,unlimited\nc:SUBOK,1,1,1\nc:CONF,1,unlimited,filtered\nc:U,1,1,2\nc:EOS,1,1\n-moved 3\n\
          -moved 4\nc:CS,1,1\nc:U,1,1,4\n-idle\n",
    ),
    // A key that came and went within one turn.
    (
        b"item book COMMAND key,command,qty\nopen c\nadd c 1 book key,command,qty COMMAND\n\
          pub 1 1 book key=k&command=ADD&qty=5\npub 1 2 book key=k&command=DELETE\nenq c 1 1 2\ntake c 9\n\
          pub 1 3 book key=k&command=ADD&qty=7\nenq c 1 1\ntake c 9\n",
        Status::Ok,
        b"c:REQOK,3\n-no 1\n-no 2\n-moved 1\n-moved 2\nc:CONOK,S1,50000,5000,*\nc:SERVNAME,tlcpd\n\
          c:CONS,unlimited\nc:SUBCMD,1,1,3,1,2\nc:CONF,1,unlimited,filtered\n-idle\n-no 3\n-moved 3\n\
          c:U,1,1,k|ADD|7\n-idle\n",
    ),
    // A COMMAND snapshot that a Clear drops.
    (
        b"item book COMMAND key,command,qty\nopen c\npub 1 1 book key=a&command=ADD&qty=1\n\
          pub 1 2 book key=b&command=ADD&qty=2\nadd c 1 book key,command,qty COMMAND snapshot=true\n\
          clear 1 3 book\npub 1 4 book key=b&command=ADD&qty=9\nenq c 1 1 2\ntake c 9\n",
        Status::Ok,
        b"-no 1\n-no 2\nc:REQOK,5\n-no 3\n-no 4\n-moved 3\n-moved 4\nc:CONOK,S1,50000,5000,*\n\
          c:SERVNAME,tlcpd\nc:CONS,unlimited\nc:SUBCMD,1,1,3,1,2\nc:CONF,1,unlimited,filtered\nc:EOS,1,1\n\
          c:CS,1,1\nc:U,1,1,b|ADD|9\n-idle\n",
    ),
    // A key that is added, changed and deleted, without a snapshot.
    (
        b"item o COMMAND key,command,qty,px\nopen c\npub 1 1 o key=a&command=ADD&qty=1&px=9\n\
          add c 1 o key,command,qty,px COMMAND\npub 1 2 o key=a&command=UPDATE&qty=3\nenq c 1 1\ntake c 6\n\
          pub 1 3 o key=a&command=UPDATE&qty=4\nenq c 1 1\ntake c\npub 1 4 o key=a&command=DELETE\n\
          enq c 1 1\ntake c\ntake c\n",
        Status::Ok,
        b"-no 1\nc:REQOK,4\n-no 2\n-moved 2\nc:CONOK,S1,50000,5000,*\nc:SERVNAME,tlcpd\nc:CONS,unlimited\n\
          c:SUBCMD,1,1,4,1,2\nc:CONF,1,unlimited,filtered\nc:U,1,1,a|ADD|3|9\n-no 3\n-moved 3\n\
          c:U,1,1,|UPDATE|4|\n-no 4\n-moved 4\nc:U,1,1,|DELETE|#|#\n-idle\n",
    ),
    // A MERGE snapshot behind a Clear.
    (
        b"item q MERGE x\npub 1 1 q x=1\nclear 1 2 q\nopen c\nadd c 1 q x MERGE snapshot=true\ntake c 9\n",
        Status::Ok,
        b"-no 1\n-no 2\nc:REQOK,5\nc:CONOK,S1,50000,5000,*\nc:SERVNAME,tlcpd\nc:CONS,unlimited\n\
          c:SUBOK,1,1,1\nc:CONF,1,unlimited,filtered\nc:U,1,1,#\n-idle\n",
    ),
    // A snapshot of an item without events.
    (
        b"item q MERGE x\nopen c\nadd c 1 q x MERGE snapshot=true\ntake c 9\n",
        Status::Ok,
        b"c:REQOK,3\nc:CONOK,S1,50000,5000,*\nc:SERVNAME,tlcpd\nc:CONS,unlimited\nc:SUBOK,1,1,1\n\
          c:CONF,1,unlimited,filtered\n-idle\n",
    ),
    // Why an update of a table is refused.
    (
        b"item book COMMAND key,command,qty\npub 1 9 book qty=1\npub 1 9 book key=k&command=GO\n\
          pub 1 9 book key=k&command=UPDATE\npub 1 9 book key=k&command=UPDATE\n",
        Status::Ok,
        b"-nokey\n-badcommand\n-no 1\n-repeated 9\n",
    ),
];

/// Scripts with a line that is refused, and what is printed before it.
pub(crate) const REFUSED: [Row; 9] = [
    // Undeclared item.
    (
        b"item q MERGE x\npub 1 1 ghost x=1\n",
        Status::BadScript { line: 2 },
        b"",
    ),
    // Unknown field.
    (
        b"item q MERGE x\npub 1 1 q z=1\n",
        Status::BadScript { line: 2 },
        b"",
    ),
    // No line.
    (b"stop\n", Status::BadScript { line: 1 }, b""),
    // Another link.
    (b"open c\nconn h tcp\n", Status::BadScript { line: 2 }, b""),
    // No such connection.
    (
        b"open c\nlose c\nlose d\nlose c\n",
        Status::BadScript { line: 3 },
        b"-lost\n",
    ),
    // A stream is lost once a line.
    (b"open c\nlose c 1\n", Status::BadScript { line: 2 }, b""),
    // A connection that is there already.
    (
        b"conn c http\nreq c bind_session LS_session=S1\nconn c ws\n",
        Status::BadScript { line: 3 },
        b"c:CONERR,20,Unknown session\n",
    ),
    // A name of a request that has another form.
    (
        b"open c\ntake c\nreq c bind:session LS_session=S1\ntake c\n",
        Status::BadScript { line: 3 },
        b"c:CONOK,S1,50000,5000,*\n",
    ),
    // An adapter of number 0.
    (
        b"item q MERGE x\npub 1 1 q x=A\npub 0 1 q x=B\n",
        Status::BadScript { line: 3 },
        b"-no 1\n",
    ),
];

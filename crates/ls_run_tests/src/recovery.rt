//! Scripts of streams that are lost and of binds: which lines are given again, who has the stream, what is refused.
use crate::longest::Long;
use crate::worked::Row;
use ls_run::Status;

/// Streams that are lost, and clients that go on behind the lines that they have.
pub(crate) const RECOVERED: [Row; 9] = [
    // The lines behind the second are given again on another connection; the first one is superseded.
    (
        b"item quote MERGE last,time\nopen c\nadd c 1 quote last,time MERGE\n\
          pub 1 1 quote last=3.04&time=20:00:33\nenq c 1 1\ntake c 9\nlose c\ntake c\nconn d ws\n\
          req d bind_session LS_session=S1&LS_recovery_from=2\ntake d 9\ntake c\n",
        Status::Ok,
        b"c:REQOK,3\n-no 1\n-moved 1\nc:CONOK,S1,50000,5000,*\nc:SERVNAME,tlcpd\nc:CONS,unlimited\n\
          c:SUBOK,1,1,2\nc:CONF,1,unlimited,filtered\nc:U,1,1,3.04|20:00:33\n-idle\n-lost\n\
          -unbound\nd:CONOK,S1,50000,5000,*\nd:SERVNAME,tlcpd\nd:CONS,unlimited\nd:PROG,2\n\
          d:U,1,1,3.04|20:00:33\n-idle\n-superseded 2\n",
    ),
    // A plain bind where nothing was given: what was owed to the first stream is replaced, and the numbered lines
    // follow.
    (
        b"item q MERGE x\nopen c\nadd c 1 q x MERGE\nlose c\nconn d ws\n\
          req d bind_session LS_session=S1\ntake d 9\n",
        Status::Ok,
        b"c:REQOK,3\n-lost\nd:CONOK,S1,50000,5000,*\nd:SERVNAME,tlcpd\nd:CONS,unlimited\n\
          d:SUBOK,1,1,1\nd:CONF,1,unlimited,filtered\n-idle\n",
    ),
    // Plain binds behind one line, behind three and behind all of them: each goes on behind the line given last.
    (
        b"item q MERGE x\nopen c\nadd c 1 q x MERGE\ntake c 4\nlose c\n\
          req c bind_session LS_session=S1\ntake c 9\npub 1 1 q x=1\nenq c 1 1\ntake c\n\
          pub 1 2 q x=2\nenq c 1 1\nlose c\nconn d ws\nreq d bind_session LS_session=S1\ntake d 4\n\
          lose d\nreq d bind_session LS_session=S1\ntake d 9\n",
        Status::Ok,
        b"c:REQOK,3\nc:CONOK,S1,50000,5000,*\nc:SERVNAME,tlcpd\nc:CONS,unlimited\nc:SUBOK,1,1,1\n\
          -lost\nc:CONOK,S1,50000,5000,*\nc:SERVNAME,tlcpd\nc:CONS,unlimited\n\
          c:CONF,1,unlimited,filtered\n-idle\n-no 1\n-moved 1\nc:U,1,1,1\n-no 2\n-moved 2\n-lost\n\
          d:CONOK,S1,50000,5000,*\nd:SERVNAME,tlcpd\nd:CONS,unlimited\nd:U,1,1,2\n-lost\n\
          d:CONOK,S1,50000,5000,*\nd:SERVNAME,tlcpd\nd:CONS,unlimited\n-idle\n",
    ),
    // Counts of no line, of a line that was given, of one that is unsent, of the last one, and of one beyond it.
    (
        b"item q MERGE x\nopen c\nadd c 1 q x MERGE\ntake c 4\nlose c\nconn d ws\n\
          req d bind_session LS_session=S1&LS_recovery_from=3\ntake d\nlose d\n\
          req d bind_session LS_session=S1&LS_recovery_from=0\ntake d 4\ntake d\nlose d\n\
          req d bind_session LS_session=S1&LS_recovery_from=2\ntake d 9\n\
          req d bind_session LS_session=S1&LS_recovery_from=1\ntake d 9\n\
          req d bind_session LS_session=S1&LS_recovery_from=1152921504606846976\ntake d\n\
          req d bind_session LS_session=S1\ntake d 9\n",
        Status::Ok,
        b"c:REQOK,3\nc:CONOK,S1,50000,5000,*\nc:SERVNAME,tlcpd\nc:CONS,unlimited\nc:SUBOK,1,1,1\n\
          -lost\nd:CONERR,4,Recovery not possible\n-none\n-none\nd:CONOK,S1,50000,5000,*\n\
          d:SERVNAME,tlcpd\nd:CONS,unlimited\nd:PROG,0\nd:SUBOK,1,1,1\n-lost\n\
          d:CONOK,S1,50000,5000,*\nd:SERVNAME,tlcpd\nd:CONS,unlimited\nd:PROG,2\n-idle\n\
          d:CONOK,S1,50000,5000,*\nd:SERVNAME,tlcpd\nd:CONS,unlimited\nd:PROG,1\n\
          d:CONF,1,unlimited,filtered\n-idle\nd:CONERR,4,Recovery not possible\n-idle\n\
          d:CONOK,S1,50000,5000,*\nd:SERVNAME,tlcpd\nd:CONS,unlimited\n-idle\n",
    ),
    // A table of mode COMMAND is gone on with where its snapshot was lost: rows are coded against the one before
    // them.
    (
        b"item t COMMAND key,command,n\npub 1 1 t key=a&command=ADD&n=1\n\
          pub 1 2 t key=b&command=ADD&n=1\nopen c\nadd c 1 t key,command,n COMMAND snapshot=true\n\
          take c 6\nlose c\npub 1 3 t key=a&command=DELETE\nenq c 1 1\n\
          req c bind_session LS_session=S1&LS_recovery_from=2\ntake c 20\n",
        Status::Ok,
        b"-no 1\n-no 2\nc:REQOK,5\nc:CONOK,S1,50000,5000,*\nc:SERVNAME,tlcpd\nc:CONS,unlimited\n\
          c:SUBCMD,1,1,3,1,2\nc:CONF,1,unlimited,filtered\nc:U,1,1,a|ADD|1\n-lost\n-no 3\n\
          -moved 3\nc:CONOK,S1,50000,5000,*\nc:SERVNAME,tlcpd\nc:CONS,unlimited\nc:PROG,2\n\
          c:U,1,1,a|ADD|1\nc:U,1,1,b||\nc:EOS,1,1\nc:U,1,1,a|DELETE|#\n-idle\n",
    ),
    // A subscription that ended while no stream was bound, and one that began: their lines wait, and are told once.
    (
        b"item q MERGE x\nopen c\nadd c 1 q x MERGE\ntake c 9\nlose c\n\
          req c control LS_reqId=a&LS_op=delete&LS_subId=1\nadd c 2 q x RAW\npub 1 1 q x=1\n\
          enq c 1 1\nenq c 2 1\ntake c\nreq c bind_session LS_session=S1&LS_recovery_from=2\n\
          take c 9\nreq c bind_session LS_session=S1&LS_recovery_from=3\ntake c 5\n",
        Status::Ok,
        b"c:REQOK,3\nc:CONOK,S1,50000,5000,*\nc:SERVNAME,tlcpd\nc:CONS,unlimited\nc:SUBOK,1,1,1\n\
          c:CONF,1,unlimited,filtered\n-idle\n-lost\nc:REQOK,a\nc:REQOK,7\n-no 1\n-noslot\n\
          -moved 1\n-unbound\nc:CONOK,S1,50000,5000,*\nc:SERVNAME,tlcpd\nc:CONS,unlimited\n\
          c:PROG,2\nc:UNSUB,1\nc:SUBOK,2,1,1\nc:CONF,2,unlimited,unfiltered\nc:U,2,1,1\n-idle\n\
          c:CONOK,S1,50000,5000,*\nc:SERVNAME,tlcpd\nc:CONS,unlimited\nc:PROG,3\nc:SUBOK,2,1,1\n",
    ),
    // Lines that are given again take nothing of the bandwidth, which lets the third row wait as long as before.
    (
        b"item q MERGE x\nopen c\nadd c 1 q x RAW\n\
          req c control LS_reqId=9&LS_op=constrain&LS_requested_max_bandwidth=0.08\npub 1 1 q x=1\n\
          pub 1 2 q x=2\npub 1 3 q x=3\nenq c 1 1 3\ntake c 20\nlose c\n\
          req c bind_session LS_session=S1&LS_recovery_from=0\ntake c 20\n\
          req c bind_session LS_session=S1&LS_recovery_from=3\ntake c 20\ntick 801\ntake c 2\n\
          req c bind_session LS_session=S1&LS_recovery_from=2\ntake c 20\n",
        Status::Ok,
        b"c:REQOK,3\nc:REQOK,9\n-no 1\n-no 2\n-no 3\n-moved 1\n-moved 2\n-moved 3\n\
          c:CONOK,S1,50000,5000,*\nc:SERVNAME,tlcpd\nc:CONS,unlimited\nc:CONS,0.08\nc:SUBOK,1,1,1\n\
          c:CONF,1,unlimited,unfiltered\nc:U,1,1,1\nc:U,1,1,2\n-notdue 801\n-lost\n\
          c:CONOK,S1,50000,5000,*\nc:SERVNAME,tlcpd\nc:CONS,0.08\nc:PROG,0\nc:SUBOK,1,1,1\n\
          c:CONF,1,unlimited,unfiltered\nc:U,1,1,1\nc:U,1,1,2\n-notdue 801\n\
          c:CONOK,S1,50000,5000,*\nc:SERVNAME,tlcpd\nc:CONS,0.08\nc:PROG,3\nc:U,1,1,2\n\
          -notdue 801\nc:U,1,1,3\n-idle\nc:CONOK,S1,50000,5000,*\nc:SERVNAME,tlcpd\nc:CONS,0.08\n\
          c:PROG,2\nc:U,1,1,1\nc:U,1,1,2\nc:U,1,1,3\n-idle\n",
    ),
    // Nor do they move the tick at which a slot of a frequency is due.
    (
        b"item q MERGE x\nopen c\nadd c 1 q x MERGE frequency=2.0\npub 1 1 q x=1\nenq c 1 1\n\
          take c 9\ntick 499\npub 1 2 q x=2\nenq c 1 1\nlose c\n\
          req c bind_session LS_session=S1&LS_recovery_from=2\ntake c 9\ntick 500\ntake c 2\n",
        Status::Ok,
        b"c:REQOK,3\n-no 1\n-moved 1\nc:CONOK,S1,50000,5000,*\nc:SERVNAME,tlcpd\nc:CONS,unlimited\n\
          c:SUBOK,1,1,1\nc:CONF,1,2.0,filtered\nc:U,1,1,1\n-idle\n-no 2\n-moved 2\n-lost\n\
          c:CONOK,S1,50000,5000,*\nc:SERVNAME,tlcpd\nc:CONS,unlimited\nc:PROG,2\nc:U,1,1,1\n\
          -notdue 500\nc:U,1,1,2\n-idle\n",
    ),
    // A client that drops twice, once behind an update that it missed, and two sessions of which one is lost.
    (
        b"item q MERGE x\nopen c\nopen d\nadd c 1 q x MERGE\nadd d 1 q x MERGE\ntake c 9\n\
          take d 9\npub 1 1 q x=1\nenq c 1 1\nenq d 1 1\ntake c\nlose c\ntake d 2\npub 1 2 q x=2\n\
          enq c 1 1\nenq d 1 1\ntake c\ntake d 2\n\
          req c bind_session LS_session=S1&LS_recovery_from=2\ntake c 4\nlose c\n\
          req c bind_session LS_session=S1&LS_recovery_from=2\ntake c 9\n",
        Status::Ok,
        b"c:REQOK,4\nd:REQOK,5\nc:CONOK,S1,50000,5000,*\nc:SERVNAME,tlcpd\nc:CONS,unlimited\n\
          c:SUBOK,1,1,1\nc:CONF,1,unlimited,filtered\n-idle\nd:CONOK,S2,50000,5000,*\n\
          d:SERVNAME,tlcpd\nd:CONS,unlimited\nd:SUBOK,1,1,1\nd:CONF,1,unlimited,filtered\n-idle\n\
          -no 1\n-moved 1\n-moved 1\nc:U,1,1,1\n-lost\nd:U,1,1,1\n-idle\n-no 2\n-moved 2\n\
          -moved 2\n-unbound\nd:U,1,1,2\n-idle\nc:CONOK,S1,50000,5000,*\nc:SERVNAME,tlcpd\n\
          c:CONS,unlimited\nc:PROG,2\n-lost\nc:CONOK,S1,50000,5000,*\nc:SERVNAME,tlcpd\n\
          c:CONS,unlimited\nc:PROG,2\nc:U,1,1,1\nc:U,1,1,2\n-idle\n",
    ),
];

/// Binds: which are refused and for which code, which connection has the stream, and what is owed to it.
pub(crate) const BOUND: [Row; 11] = [
    // A bind names its session, over each kind of link, and its numbers have a form.
    (
        b"open c\ntake c 3\nconn d ws\nconn h http\nreq d bind_session\n\
          req d bind_session LS_recovery_from=0\nreq h bind_session LS_keepalive_millis=5000\n\
          req d bind_session LS_session=S1&LS_recovery_from=\n\
          req d bind_session LS_session=S1&LS_recovery_from=x\n\
          req d bind_session LS_session=S1&LS_recovery_from=01\n\
          req d bind_session LS_session=S1&LS_recovery_from=-1\n\
          req d bind_session LS_session=S1&LS_recovery_from=1.0\n\
          req d bind_session LS_session=S1&LS_recovery_from=1152921504606846977\n\
          req d bind_session LS_session=S1&LS_polling=true\n\
          req d bind_session LS_session=S1&LS_keepalive_millis=x\n\
          req d bind_session LS_session=S1&LS_session=S1\n\
          req h bind_session LS_session=S1&LS_content_length=x\ntake d\ntake c\n\
          req d bind_session LS_session=S1&LS_content_length=x&LS_keepalive_millis=999&LS_polling=f\
          alse&LS_cause=any\ntake d 9\n",
        Status::Ok,
        b"c:CONOK,S1,50000,5000,*\nc:SERVNAME,tlcpd\nc:CONS,unlimited\n\
          d:CONERR,65,Malformed request\nd:CONERR,65,Malformed request\n\
          h:CONERR,65,Malformed request\nd:CONERR,65,Malformed request\n\
          d:CONERR,65,Malformed request\nd:CONERR,65,Malformed request\n\
          d:CONERR,65,Malformed request\nd:CONERR,65,Malformed request\n\
          d:CONERR,65,Malformed request\nd:CONERR,65,Malformed request\n\
          d:CONERR,65,Malformed request\nd:CONERR,65,Malformed request\n\
          h:CONERR,65,Malformed request\n-none\n-idle\nd:CONOK,S1,50000,1000,*\nd:SERVNAME,tlcpd\n\
          d:CONS,unlimited\n-idle\n",
    ),
    // A session that there is not: by number, by another text, and whatever the count says.
    (
        b"open c\nconn h http\nreq c bind_session LS_session=S2\nreq c bind_session LS_session=S0\n\
          req c bind_session LS_session=S01\nreq c bind_session LS_session=S\n\
          req c bind_session LS_session=\nreq c bind_session LS_session=s1\n\
          req c bind_session LS_session=1\nreq c bind_session LS_session=S1152921504606846977\n\
          req h bind_session LS_session=S2\nreq h bind_session LS_session=S01&LS_recovery_from=9\n\
          take h\ntake c 4\n",
        Status::Ok,
        b"c:CONERR,20,Unknown session\nc:CONERR,20,Unknown session\nc:CONERR,20,Unknown session\n\
          c:CONERR,20,Unknown session\nc:CONERR,20,Unknown session\nc:CONERR,20,Unknown session\n\
          c:CONERR,20,Unknown session\nc:CONERR,20,Unknown session\nh:CONERR,20,Unknown session\n\
          h:CONERR,20,Unknown session\n-none\nc:CONOK,S1,50000,5000,*\nc:SERVNAME,tlcpd\n\
          c:CONS,unlimited\n-idle\n",
    ),
    // A session that was destroyed: END once, and then nothing more, whatever becomes of its stream.
    (
        b"open c\nreq c control LS_reqId=6&LS_op=destroy\ntake c 9\ntake c\nlose c\ntake c\n\
          lose c\nreq c bind_session LS_session=S1\n\
          req c bind_session LS_session=S1&LS_recovery_from=9\ntick 30000\ntake c\n",
        Status::Ok,
        b"c:REQOK,6\nc:END,31,Destroyed by request\n-ended 31\n-ended 31\n-lost\n-ended 31\n\
          -unbound\nc:CONERR,20,Unknown session\nc:CONERR,20,Unknown session\n-ended 31\n",
    ),
    // One that is destroyed while no stream is bound tells none of it.
    (
        b"open c\ntake c 3\nlose c\nreq c control LS_reqId=6&LS_op=destroy\ntake c\n\
          req c control LS_reqId=7&LS_op=destroy\n\
          req c bind_session LS_session=S1&LS_recovery_from=0\nlose c\ntake c 9\n",
        Status::Ok,
        b"c:CONOK,S1,50000,5000,*\nc:SERVNAME,tlcpd\nc:CONS,unlimited\n-lost\nc:REQOK,6\n\
          -ended 31\nc:REQERR,7,20,Unknown session\nc:CONERR,20,Unknown session\n-unbound\n\
          -ended 31\n",
    ),
    // A loss behind END that was not given: it is never told.
    (
        b"open c\ntake c 2\nreq c control LS_reqId=6&LS_op=destroy\nlose c\ntake c\ntick 60000\n\
          take c\n",
        Status::Ok,
        b"c:CONOK,S1,50000,5000,*\nc:SERVNAME,tlcpd\nc:REQOK,6\n-lost\n-ended 31\n-ended 31\n",
    ),
    // A connection that binds its own session again holds the new stream, and the one before is gone.
    (
        b"open c\ntake c\nreq c bind_session LS_session=S1\ntake c 2\n\
          req c bind_session LS_session=S1&LS_recovery_from=0&LS_keepalive_millis=40000\ntake c 9\n\
          lose c\nlose c\n",
        Status::Ok,
        b"c:CONOK,S1,50000,5000,*\nc:CONOK,S1,50000,5000,*\nc:SERVNAME,tlcpd\n\
          c:CONOK,S1,50000,30000,*\nc:SERVNAME,tlcpd\nc:CONS,unlimited\nc:PROG,0\n-idle\n-lost\n\
          -unbound\n",
    ),
    // One that binds another session leaves its own bound: it doesn't time out, and another connection takes it up.
    (
        b"item q MERGE x\nopen c\nopen d\nadd c 1 q x MERGE\ntake c 9\ntake d 9\n\
          req c bind_session LS_session=S2\ntake c 9\ntake d\nlose d\ntick 30000\n\
          req d control LS_reqId=a&LS_op=force_rebind&LS_session=S1\npub 1 1 q x=1\nenq c 1 1\n\
          req d bind_session LS_session=S1&LS_recovery_from=1\nenq d 1 1\ntake d 9\ntake c\n",
        Status::Ok,
        b"c:REQOK,4\nc:CONOK,S1,50000,5000,*\nc:SERVNAME,tlcpd\nc:CONS,unlimited\nc:SUBOK,1,1,1\n\
          c:CONF,1,unlimited,filtered\n-idle\nd:CONOK,S2,50000,5000,*\nd:SERVNAME,tlcpd\n\
          d:CONS,unlimited\n-idle\nc:CONOK,S2,50000,5000,*\nc:SERVNAME,tlcpd\nc:CONS,unlimited\n\
          -idle\n-superseded 2\n-superseded 2\nd:REQOK,a\n-no 1\n-noslot\n-moved 1\n\
          d:CONOK,S1,50000,5000,*\nd:SERVNAME,tlcpd\nd:CONS,unlimited\nd:PROG,1\n\
          d:CONF,1,unlimited,filtered\nd:U,1,1,1\n-idle\n-idle\n",
    ),
    // A create on a connection that holds a stream leaves the session before bound too.
    (
        b"open c\ntake c 4\nreq c create_session\ntake c 9\nlose c\ntick 30000\ntake c\nconn d ws\n\
          req d bind_session LS_session=S1\ntake d 9\n",
        Status::Ok,
        b"c:CONOK,S1,50000,5000,*\nc:SERVNAME,tlcpd\nc:CONS,unlimited\n-idle\n\
          c:CONOK,S2,50000,5000,*\nc:SERVNAME,tlcpd\nc:CONS,unlimited\n-idle\n-lost\n-ended 73\n\
          d:CONOK,S1,50000,5000,*\nd:SERVNAME,tlcpd\nd:CONS,unlimited\n-idle\n",
    ),
    // Two connections of one session by turns: the one that is superseded still enqueues and asks, and is given
    // nothing.
    (
        b"item q MERGE x\nopen c\nadd c 1 q x MERGE\ntake c 9\nconn d ws\n\
          req d bind_session LS_session=S1\ntake c\nlose c\npub 1 1 q x=1\nenq c 1 1\ntake d 9\n\
          req c control LS_reqId=a&LS_op=reconf&LS_subId=1&LS_requested_max_frequency=2\ntake c\n\
          take d 2\nreq c bind_session LS_session=S1&LS_recovery_from=3\ntake d\nlose d\ntake c 9\n\
          req d bind_session LS_session=S1&LS_recovery_from=4\ntake c\ntake d 9\n\
          req d control LS_reqId=b&LS_op=destroy\ntake c\ntake d 2\nlose c\nlose d\n",
        Status::Ok,
        b"c:REQOK,3\nc:CONOK,S1,50000,5000,*\nc:SERVNAME,tlcpd\nc:CONS,unlimited\nc:SUBOK,1,1,1\n\
          c:CONF,1,unlimited,filtered\n-idle\n-superseded 2\n-superseded 2\n-no 1\n-moved 1\n\
          d:CONOK,S1,50000,5000,*\nd:SERVNAME,tlcpd\nd:CONS,unlimited\nd:U,1,1,1\n-idle\n\
          c:REQOK,a\n-superseded 2\nd:CONF,1,2.0,filtered\n-idle\n-superseded 3\n-superseded 3\n\
          c:CONOK,S1,50000,5000,*\nc:SERVNAME,tlcpd\nc:CONS,unlimited\nc:PROG,3\n\
          c:CONF,1,2.0,filtered\n-idle\n-superseded 4\nd:CONOK,S1,50000,5000,*\nd:SERVNAME,tlcpd\n\
          d:CONS,unlimited\nd:PROG,4\n-idle\nd:REQOK,b\n-superseded 4\n\
          d:END,31,Destroyed by request\n-ended 31\n-superseded 4\n-lost\n",
    ),
    // CONS that is owed without a stream is replaced by the CONS of the next one; with a stream each is told.
    (
        b"open c\ntake c 3\n\
          req c control LS_reqId=a&LS_op=constrain&LS_requested_max_bandwidth=0.5\nlose c\n\
          req c control LS_reqId=b&LS_op=constrain&LS_requested_max_bandwidth=40\ntake c\n\
          req c bind_session LS_session=S1\n\
          req c control LS_reqId=d&LS_op=constrain&LS_requested_max_bandwidth=unlimited\ntake c 9\n",
        Status::Ok,
        b"c:CONOK,S1,50000,5000,*\nc:SERVNAME,tlcpd\nc:CONS,unlimited\nc:REQOK,a\n-lost\n\
          c:REQOK,b\n-unbound\nc:REQOK,d\nc:CONOK,S1,50000,5000,*\nc:SERVNAME,tlcpd\nc:CONS,40.0\n\
          c:CONS,unlimited\n-idle\n",
    ),
    // Requests on a session from a connection that never had one, before a loss and behind it.
    (
        b"item q MERGE x\nopen c\nconn d ws\n\
          req d control LS_reqId=a&LS_op=add&LS_session=S1&LS_subId=1&LS_mode=MERGE&LS_group=q&LS_s\
          chema=x\nenq d 1 1\ntake d\nlose d\ntake c 9\nlose c\n\
          req d control LS_reqId=b&LS_op=delete&LS_session=S1&LS_subId=1\n\
          req d control LS_reqId=e&LS_op=constrain&LS_requested_max_bandwidth=1\n\
          req c bind_session LS_session=S1&LS_recovery_from=2\ntake c 9\n",
        Status::Ok,
        b"d:REQOK,a\n-noslot\n-none\n-none\nc:CONOK,S1,50000,5000,*\nc:SERVNAME,tlcpd\n\
          c:CONS,unlimited\nc:SUBOK,1,1,1\nc:CONF,1,unlimited,filtered\n-idle\n-lost\nd:REQOK,b\n\
          d:REQERR,e,20,Unknown session\nc:CONOK,S1,50000,5000,*\nc:SERVNAME,tlcpd\n\
          c:CONS,unlimited\nc:PROG,2\nc:UNSUB,1\n-idle\n",
    ),
];

/// Of 1,030 lines the last 1,024 are kept: counts of as many, and of one more; and of the last one, and one beyond
/// it.
pub(crate) const KEPT: Long = (
    &[
        (
            "item q MERGE x\nopen c\nadd c 1 q x MERGE\ntake c 9\n",
            0,
            1,
        ),
        ("pub 1 # q x=#\nenq c 1 1\ntake c\n", 1, 1029),
        (
            "conn d ws\nreq d bind_session LS_session=S1&LS_recovery_from=6\ntake d 5\n\
              req d bind_session LS_session=S1&LS_recovery_from=1030\ntake d 9\n\
              req d bind_session LS_session=S1&LS_recovery_from=1031\n\
              req d bind_session LS_session=S1&LS_recovery_from=5\ntake c\n",
            0,
            1,
        ),
    ],
    &[
        (
            "c:REQOK,3\nc:CONOK,S1,50000,5000,*\nc:SERVNAME,tlcpd\nc:CONS,unlimited\n\
              c:SUBOK,1,1,1\nc:CONF,1,unlimited,filtered\n-idle\n",
            0,
            1,
        ),
        ("-no #\n-moved #\nc:U,1,1,#\n", 1, 1029),
        (
            "d:CONOK,S1,50000,5000,*\nd:SERVNAME,tlcpd\nd:CONS,unlimited\nd:PROG,6\nd:U,1,1,5\n\
              d:CONOK,S1,50000,5000,*\nd:SERVNAME,tlcpd\nd:CONS,unlimited\nd:PROG,1030\n-idle\n\
              d:CONERR,4,Recovery not possible\nd:CONERR,4,Recovery not possible\n-superseded 3\n",
            0,
            1,
        ),
    ],
);

/// 1,024 lines are given again, each once, and a row that came meanwhile behind them.
pub(crate) const GIVEN_AGAIN: Long = (
    &[
        ("item q MERGE x\nopen c\nadd c 1 q x RAW\ntake c 9\n", 0, 1),
        ("pub 1 # q x=#\nenq c 1 1\ntake c\n", 1, 1024),
        (
            "lose c\npub 1 1024 q x=end\nenq c 1 1\n\
              req c bind_session LS_session=S1&LS_recovery_from=0\n\
              req c bind_session LS_session=S1&LS_recovery_from=1\ntake c 4\ntake c 1000\n\
              take c 1000\nreq c bind_session LS_session=S1&LS_recovery_from=1\n\
              req c bind_session LS_session=S1&LS_recovery_from=2\ntake c 5\n",
            0,
            1,
        ),
    ],
    &[
        (
            "c:REQOK,3\nc:CONOK,S1,50000,5000,*\nc:SERVNAME,tlcpd\nc:CONS,unlimited\n\
              c:SUBOK,1,1,1\nc:CONF,1,unlimited,unfiltered\n-idle\n",
            0,
            1,
        ),
        ("-no #\n-moved #\nc:U,1,1,#\n", 1, 1024),
        (
            "-lost\n-no 1024\n-moved 1024\nc:CONERR,4,Recovery not possible\n\
              c:CONOK,S1,50000,5000,*\nc:SERVNAME,tlcpd\nc:CONS,unlimited\nc:PROG,1\n\
              c:CONF,1,unlimited,unfiltered\n",
            0,
            1,
        ),
        ("c:U,1,1,#\n", 1, 1024),
        (
            "c:U,1,1,end\n-idle\nc:CONERR,4,Recovery not possible\nc:CONOK,S1,50000,5000,*\n\
              c:SERVNAME,tlcpd\nc:CONS,unlimited\nc:PROG,2\nc:U,1,1,1\n",
            0,
            1,
        ),
    ],
);

/// Lines that a client goes back behind are unsent again: beyond 512 of them a request for more is refused.
pub(crate) const UNSENT: Long = (
    &[
        ("item q MERGE x\nopen c\nadd c 1 q x RAW\ntake c 9\n", 0, 1),
        ("pub 1 # q x=#\nenq c 1 1\ntake c\n", 1, 601),
        (
            "lose c\nreq c bind_session LS_session=S1&LS_recovery_from=90\n\
              req c control LS_reqId=a&LS_op=reconf&LS_subId=1&LS_requested_max_frequency=1\n\
              take c 5\n\
              req c control LS_reqId=b&LS_op=reconf&LS_subId=1&LS_requested_max_frequency=1\n\
              req c control LS_reqId=d&LS_op=delete&LS_subId=1\n\
              req c bind_session LS_session=S1&LS_recovery_from=601\ntake c 9\n",
            0,
            1,
        ),
    ],
    &[
        (
            "c:REQOK,3\nc:CONOK,S1,50000,5000,*\nc:SERVNAME,tlcpd\nc:CONS,unlimited\n\
              c:SUBOK,1,1,1\nc:CONF,1,unlimited,unfiltered\n-idle\n",
            0,
            1,
        ),
        ("-no #\n-moved #\nc:U,1,1,#\n", 1, 601),
        (
            "-lost\nc:REQERR,a,70,Too many lines waiting\nc:CONOK,S1,50000,5000,*\n\
              c:SERVNAME,tlcpd\nc:CONS,unlimited\nc:PROG,90\nc:U,1,1,89\nc:REQOK,b\n\
              c:REQERR,d,70,Too many lines waiting\nc:CONOK,S1,50000,5000,*\nc:SERVNAME,tlcpd\n\
              c:CONS,unlimited\nc:PROG,601\nc:U,1,1,600\nc:CONF,1,unlimited,unfiltered\n-idle\n",
            0,
            1,
        ),
    ],
);

/// Without a stream 512 lines may be owed, and the next bind replaces them all.
pub(crate) const OWED_WITHOUT_STREAM: Long = (
    &[
        ("open c\ntake c 3\nlose c\n", 0, 1),
        (
            "req c control LS_reqId=#&LS_op=constrain&LS_requested_max_bandwidth=#\n",
            1,
            514,
        ),
        (
            "take c\nreq c bind_session LS_session=S1\n\
              req c control LS_reqId=a&LS_op=constrain&LS_requested_max_bandwidth=0.5\ntake c 9\n",
            0,
            1,
        ),
    ],
    &[
        (
            "c:CONOK,S1,50000,5000,*\nc:SERVNAME,tlcpd\nc:CONS,unlimited\n-lost\n",
            0,
            1,
        ),
        ("c:REQOK,#\n", 1, 513),
        (
            "c:REQERR,513,70,Too many lines waiting\n-unbound\nc:REQOK,a\nc:CONOK,S1,50000,5000,*\n\
              c:SERVNAME,tlcpd\nc:CONS,512.0\nc:CONS,0.5\n-idle\n",
            0,
            1,
        ),
    ],
);

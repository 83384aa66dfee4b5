//! Scripts of streams that are over, by a request or by their bytes, and of sessions that are without one for too long.
use crate::longest::Long;
use crate::worked::Row;
use ls_run::Status;

/// Streams that are forced to be over, and those over http, with a content length.
pub(crate) const LOOPED: [Row; 7] = [
    // LOOP by a force_rebind comes behind what is owed, then no stream is bound; behind a plain bind and a loss the
    // session times out.
    (
        b"item q MERGE x\nopen c\nreq c control LS_reqId=5&LS_op=force_rebind\ntake c 9\n\
          req c bind_session LS_session=S1\ntake c 9\nlose c\ntick 30000\n\
          req c control LS_reqId=6&LS_op=destroy\n",
        Status::Ok,
        b"c:REQOK,5\nc:CONOK,S1,50000,5000,*\nc:SERVNAME,tlcpd\nc:CONS,unlimited\nc:LOOP,0\n\
          -unbound\nc:CONOK,S1,50000,5000,*\nc:SERVNAME,tlcpd\nc:CONS,unlimited\n-idle\n-lost\n\
          c:REQERR,6,20,Unknown session\n",
    ),
    // Where it is destroyed before that loss, END is told on the second stream.
    (
        b"item q MERGE x\nopen c\nreq c control LS_reqId=5&LS_op=force_rebind\ntake c 9\n\
          req c bind_session LS_session=S1\ntake c 9\nreq c control LS_reqId=6&LS_op=destroy\n\
          take c\ntake c\n",
        Status::Ok,
        b"c:REQOK,5\nc:CONOK,S1,50000,5000,*\nc:SERVNAME,tlcpd\nc:CONS,unlimited\nc:LOOP,0\n\
          -unbound\nc:CONOK,S1,50000,5000,*\nc:SERVNAME,tlcpd\nc:CONS,unlimited\n-idle\nc:REQOK,6\n\
          c:END,31,Destroyed by request\n-ended 31\n",
    ),
    // LOOP comes once, however often it was asked for, and before lines that are unsent; these follow on the next
    // stream.
    (
        b"item q MERGE x\nopen c\nadd c 1 q x MERGE\nreq c control LS_reqId=5&LS_op=force_rebind\n\
          req c control LS_reqId=6&LS_op=force_rebind\ntake c 9\ntake c\nlose c\n\
          req c bind_session LS_session=S1&LS_recovery_from=0\ntake c 9\n",
        Status::Ok,
        b"c:REQOK,3\nc:REQOK,5\nc:REQOK,6\nc:CONOK,S1,50000,5000,*\nc:SERVNAME,tlcpd\n\
          c:CONS,unlimited\nc:LOOP,0\n-unbound\n-unbound\n-unbound\nc:CONOK,S1,50000,5000,*\n\
          c:SERVNAME,tlcpd\nc:CONS,unlimited\nc:PROG,0\nc:SUBOK,1,1,1\n\
          c:CONF,1,unlimited,filtered\n-idle\n",
    ),
    // A wish for LOOP is that of its stream: one without a stream is lost with the next bind, and so is one whose
    // stream is replaced or lost.
    (
        b"open c\ntake c 3\nlose c\nreq c control LS_reqId=5&LS_op=force_rebind\ntake c\n\
          req c bind_session LS_session=S1\ntake c 9\nreq c control LS_reqId=6&LS_op=force_rebind\n\
          req c bind_session LS_session=S1\ntake c 9\nreq c control LS_reqId=7&LS_op=force_rebind\n\
          lose c\ntake c\nreq c bind_session LS_session=S1\ntake c 9\n",
        Status::Ok,
        b"c:CONOK,S1,50000,5000,*\nc:SERVNAME,tlcpd\nc:CONS,unlimited\n-lost\nc:REQOK,5\n-unbound\n\
          c:CONOK,S1,50000,5000,*\nc:SERVNAME,tlcpd\nc:CONS,unlimited\n-idle\nc:REQOK,6\n\
          c:CONOK,S1,50000,5000,*\nc:SERVNAME,tlcpd\nc:CONS,unlimited\n-idle\nc:REQOK,7\n-lost\n\
          -unbound\nc:CONOK,S1,50000,5000,*\nc:SERVNAME,tlcpd\nc:CONS,unlimited\n-idle\n",
    ),
    // What is owed comes before LOOP, and END before both.
    (
        b"open c\ntake c 3\nreq c control LS_reqId=5&LS_op=force_rebind\n\
          req c control LS_reqId=6&LS_op=constrain&LS_requested_max_bandwidth=0.5\ntake c 9\n\
          req c bind_session LS_session=S1\nreq c control LS_reqId=7&LS_op=force_rebind\n\
          req c control LS_reqId=8&LS_op=destroy\ntake c 9\n",
        Status::Ok,
        b"c:CONOK,S1,50000,5000,*\nc:SERVNAME,tlcpd\nc:CONS,unlimited\nc:REQOK,5\nc:REQOK,6\n\
          c:CONS,0.5\nc:LOOP,0\n-unbound\nc:REQOK,7\nc:REQOK,8\nc:END,31,Destroyed by request\n\
          -ended 31\n",
    ),
    // A connection that is superseded forces the stream that is bound.
    (
        b"open c\ntake c 3\nconn d ws\nreq d bind_session LS_session=S1\n\
          req c control LS_reqId=5&LS_op=force_rebind\ntake c\ntake d 9\ntake c\n\
          req c bind_session LS_session=S1\ntake d\ntake c 9\n",
        Status::Ok,
        b"c:CONOK,S1,50000,5000,*\nc:SERVNAME,tlcpd\nc:CONS,unlimited\nc:REQOK,5\n-superseded 2\n\
          d:CONOK,S1,50000,5000,*\nd:SERVNAME,tlcpd\nd:CONS,unlimited\nd:LOOP,0\n-unbound\n\
          -superseded 2\n-superseded 3\nc:CONOK,S1,50000,5000,*\nc:SERVNAME,tlcpd\n\
          c:CONS,unlimited\n-idle\n",
    ),
    // Over http a control request names its session, and `add` takes that of the connection; wsok is none of its
    // requests.
    (
        b"item q MERGE x\nconn h http\nadd h 1 q x MERGE\nenq h 1 1\ntake h\nlose h\n\
          req h control LS_reqId=a&LS_op=destroy\nreq h wsok\n\
          req h create_session LS_keepalive_millis=40000&LS_content_length=\n\
          req h create_session LS_keepalive_millis=40000\nadd h 1 q x MERGE\n\
          req h control LS_reqId=b&LS_op=force_rebind\nreq h control LS_op=force_rebind\n\
          req h control LS_session=S1&LS_op=force_rebind\npub 1 1 q x=1\nenq h 1 1\ntake h 9\n\
          req h control LS_reqId=d&LS_op=force_rebind&LS_session=S1\n\
          req h control LS_reqId=e&LS_op=force_rebind&LS_session=S2\ntake h 2\n\
          req h bind_session LS_session=S1\ntake h 9\n",
        Status::Ok,
        b"h:REQERR,3,20,Unknown session\n-noslot\n-none\n-none\nh:REQERR,a,65,Malformed request\n\
          h:ERROR,65,Malformed request\nh:CONERR,65,Malformed request\nh:REQOK,11\n\
          h:REQERR,b,65,Malformed request\nh:ERROR,65,Malformed request\n\
          h:ERROR,65,Malformed request\n-no 1\n-moved 1\nh:CONOK,S1,50000,30000,*\n\
          h:SERVNAME,tlcpd\nh:CONS,unlimited\nh:SUBOK,1,1,1\nh:CONF,1,unlimited,filtered\n\
          h:U,1,1,1\n-idle\nh:REQOK,d\nh:REQERR,e,20,Unknown session\nh:LOOP,0\n-unbound\n\
          h:CONOK,S1,50000,5000,*\nh:SERVNAME,tlcpd\nh:CONS,unlimited\n-idle\n",
    ),
];

/// Sessions that are without a stream for 30,000 ms.
pub(crate) const TIMED_OUT: [Row; 4] = [
    // One ms less is not enough; a tick that names the same tick again changes nothing more.
    (
        b"open c\nopen d\ntake c 3\nlose c\ntick 1\nlose d\ntick 29999\ntake c\ntake d\n\
          tick 29999\ntake c\ntick 30000\ntake c\ntake d\n\
          req c bind_session LS_session=S1&LS_recovery_from=0\nlose c\ntick 30000\ntake d\n\
          tick 30001\ntake d\ntake c\nlose d\n",
        Status::Ok,
        b"c:CONOK,S1,50000,5000,*\nc:SERVNAME,tlcpd\nc:CONS,unlimited\n-lost\n-lost\n-unbound\n\
          -unbound\n-unbound\n-ended 73\n-unbound\nc:CONERR,20,Unknown session\n-unbound\n\
          -unbound\n-ended 73\n-ended 73\n-unbound\n",
    ),
    // The time counts from LOOP as from a loss.
    (
        b"open c\ntick 7\nreq c control LS_reqId=5&LS_op=force_rebind\ntake c 4\ntick 20000\n\
          take c\nlose c\ntick 30006\ntake c\ntick 30007\ntake c\n",
        Status::Ok,
        b"c:REQOK,5\nc:CONOK,S1,50000,5000,*\nc:SERVNAME,tlcpd\nc:CONS,unlimited\nc:LOOP,0\n\
          -unbound\n-unbound\n-unbound\n-ended 73\n",
    ),
    // A bind ends it, a refused one does not, and a second loss begins it anew.
    (
        b"open c\ntake c 3\nlose c\ntick 29999\nreq c bind_session LS_session=S1\ntake c 4\n\
          lose c\ntick 59998\nreq c bind_session LS_session=S1&LS_recovery_from=1\ntake c\n\
          tick 59999\ntake c\ntick 1000000000\ntake c\n",
        Status::Ok,
        b"c:CONOK,S1,50000,5000,*\nc:SERVNAME,tlcpd\nc:CONS,unlimited\n-lost\n\
          c:CONOK,S1,50000,5000,*\nc:SERVNAME,tlcpd\nc:CONS,unlimited\n-idle\n-lost\n\
          c:CONERR,4,Recovery not possible\n-unbound\n-ended 73\n-ended 73\n",
    ),
    // It ends at the first tick that is told then; its slots leave, and requests don't know it.
    (
        b"item q MERGE x\nopen c\nadd c 1 q x MERGE\nopen d\nadd d 1 q x MERGE\ntake d 9\nlose c\n\
          tick 90000\nenq c 1 1\npub 1 1 q x=1\nenq d 1 1\ntake d\n\
          req d control LS_reqId=a&LS_op=reconf&LS_session=S1&LS_subId=1&LS_requested_max_frequency\
          =1\nreq d bind_session LS_session=S1\nadd c 2 q x MERGE\ntake d\ntake c\n",
        Status::Ok,
        b"c:REQOK,3\nd:REQOK,5\nd:CONOK,S2,50000,5000,*\nd:SERVNAME,tlcpd\nd:CONS,unlimited\n\
          d:SUBOK,1,1,1\nd:CONF,1,unlimited,filtered\n-idle\n-lost\n-noslot\n-no 1\n-moved 1\n\
          d:U,1,1,1\nd:REQERR,a,20,Unknown session\nd:CONERR,20,Unknown session\n\
          c:REQERR,15,20,Unknown session\n-idle\n-ended 73\n",
    ),
];

/// A content length over http: one below 1,000 is read as 1,000, which are reached by owed lines, and all of these
/// come before LOOP. A bind without one has 50,000,000.
pub(crate) const OWED_OVER_HTTP: Long = (
    &[
        (
            "conn h http\nreq h create_session LS_content_length=999\n",
            0,
            1,
        ),
        (
            "req h control LS_reqId=#&LS_session=S1&LS_op=constrain&LS_requested_max_bandwidth=unli\
              mited\n",
            1,
            60,
        ),
        ("take h 70\n", 0, 1),
        (
            "req h control LS_reqId=#&LS_session=S1&LS_op=constrain&LS_requested_max_bandwidth=unli\
              mited\n",
            60,
            63,
        ),
        (
            "take h 70\ntick 1\nlose h\nreq h bind_session LS_session=S1\n",
            0,
            1,
        ),
        (
            "req h control LS_reqId=#&LS_session=S1&LS_op=constrain&LS_requested_max_bandwidth=unli\
              mited\n",
            63,
            133,
        ),
        ("take h 100\n", 0, 1),
    ],
    &[
        ("h:REQOK,#\n", 1, 60),
        (
            "h:CONOK,S1,50000,5000,*\nh:SERVNAME,tlcpd\nh:CONS,unlimited\n",
            0,
            1,
        ),
        ("h:CONS,unlimited\n", 1, 60),
        ("-idle\n", 0, 1),
        ("h:REQOK,#\n", 60, 63),
        (
            "h:CONS,unlimited\nh:CONS,unlimited\nh:CONS,unlimited\nh:LOOP,0\n-unbound\n-unbound\n",
            0,
            1,
        ),
        ("h:REQOK,#\n", 63, 133),
        (
            "h:CONOK,S1,50000,5000,*\nh:SERVNAME,tlcpd\nh:CONS,unlimited\n",
            0,
            1,
        ),
        ("h:CONS,unlimited\n", 63, 133),
        ("-idle\n", 0, 1),
    ],
);

/// Over ws a content length isn't read.
pub(crate) const OWED_OVER_WS: Long = (
    &[
        (
            "conn w ws\nreq w create_session LS_content_length=1000\n",
            0,
            1,
        ),
        (
            "req w control LS_reqId=#&LS_op=constrain&LS_requested_max_bandwidth=unlimited\n",
            1,
            71,
        ),
        (
            "take w 100\nreq w bind_session LS_session=S1&LS_content_length=1000\n",
            0,
            1,
        ),
        (
            "req w control LS_reqId=#&LS_op=constrain&LS_requested_max_bandwidth=unlimited\n",
            1,
            71,
        ),
        ("take w 100\n", 0, 1),
    ],
    &[
        ("w:REQOK,#\n", 1, 71),
        (
            "w:CONOK,S1,50000,5000,*\nw:SERVNAME,tlcpd\nw:CONS,unlimited\n",
            0,
            1,
        ),
        ("w:CONS,unlimited\n", 1, 71),
        ("-idle\n", 0, 1),
        ("w:REQOK,#\n", 1, 71),
        (
            "w:CONOK,S1,50000,5000,*\nw:SERVNAME,tlcpd\nw:CONS,unlimited\n",
            0,
            1,
        ),
        ("w:CONS,unlimited\n", 1, 71),
        ("-idle\n", 0, 1),
    ],
);

/// Lines that are given again count as bytes of their stream: after LOOP a plain bind goes on. 1,879 bytes are
/// given at the end.
pub(crate) const RECOVERED_OVER_HTTP: Long = (
    &[
        (
            "item q MERGE x\nopen c\nadd c 1 q x RAW\npub 1 1 q x=",
            0,
            1,
        ),
        ("a", 0, 900),
        ("\npub 1 2 q x=", 0, 1),
        ("b", 0, 900),
        (
            "\nenq c 1 1 2\ntake c 9\nconn h http\n\
              req h bind_session LS_session=S1&LS_recovery_from=0&LS_content_length=1\ntake h 20\n\
              req h bind_session LS_session=S1&LS_content_length=1000\ntake h 20\n\
              req h bind_session LS_session=S1&LS_recovery_from=2&LS_content_length=1880\n\
              take h 20\n\
              req h bind_session LS_session=S1&LS_recovery_from=2&LS_content_length=1879\n\
              take h 20\n",
            0,
            1,
        ),
    ],
    &[
        (
            "c:REQOK,3\n-no 1\n-no 2\n-moved 1\n-moved 2\nc:CONOK,S1,50000,5000,*\n\
              c:SERVNAME,tlcpd\nc:CONS,unlimited\nc:SUBOK,1,1,1\nc:CONF,1,unlimited,unfiltered\n\
              c:U,1,1,",
            0,
            1,
        ),
        ("a", 0, 900),
        ("\nc:U,1,1,", 0, 1),
        ("b", 0, 900),
        (
            "\n-idle\nh:CONOK,S1,50000,5000,*\nh:SERVNAME,tlcpd\nh:CONS,unlimited\nh:PROG,0\n\
              h:SUBOK,1,1,1\nh:CONF,1,unlimited,unfiltered\nh:U,1,1,",
            0,
            1,
        ),
        ("a", 0, 900),
        (
            "\nh:LOOP,0\n-unbound\nh:CONOK,S1,50000,5000,*\nh:SERVNAME,tlcpd\nh:CONS,unlimited\n\
              h:U,1,1,",
            0,
            1,
        ),
        ("b", 0, 900),
        (
            "\n-idle\nh:CONOK,S1,50000,5000,*\nh:SERVNAME,tlcpd\nh:CONS,unlimited\nh:PROG,2\n\
              h:U,1,1,",
            0,
            1,
        ),
        ("a", 0, 900),
        ("\nh:U,1,1,", 0, 1),
        ("b", 0, 900),
        (
            "\n-idle\nh:CONOK,S1,50000,5000,*\nh:SERVNAME,tlcpd\nh:CONS,unlimited\nh:PROG,2\n\
              h:U,1,1,",
            0,
            1,
        ),
        ("a", 0, 900),
        ("\nh:U,1,1,", 0, 1),
        ("b", 0, 900),
        ("\nh:LOOP,0\n-unbound\n", 0, 1),
    ],
);

/// 1,024 sessions that time out at once make room for others.
pub(crate) const ALL_TIMED_OUT: Long = (
    &[
        ("open c#\n", 1, 1025),
        ("lose c#\n", 1, 1025),
        (
            "open last\ntick 29999\nreq last create_session\ntake last\ntick 30000\n\
              req last create_session\ntake last\ntake c1024\ntake c1\n",
            0,
            1,
        ),
    ],
    &[
        ("-lost\n", 1, 1025),
        (
            "last:CONERR,8,Too many sessions\nlast:CONERR,8,Too many sessions\n-none\n\
              last:CONOK,S1025,50000,5000,*\n-ended 73\n-ended 73\n",
            0,
            1,
        ),
    ],
);

/// A slot that is far behind its item stands against events, until its session times out.
pub(crate) const FAR: Long = (
    &[
        ("item q MERGE x\nopen c\nadd c 1 q x MERGE\n", 0, 1),
        ("pub 1 # q x=#\n", 1, 65),
        (
            "lose c\ntick 29999\npub 1 65 q x=65\ntick 30000\npub 1 65 q x=65\nenq c 1 1\n",
            0,
            1,
        ),
    ],
    &[
        ("c:REQOK,3\n", 0, 1),
        ("-no #\n", 1, 65),
        ("-lost\n-backlog 1\n-no 65\n-noslot\n", 0, 1),
    ],
);

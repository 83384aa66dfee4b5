//! Scripts of requests that are refused, each for its code, and of the limits: at the limit, and one beyond it.
use crate::longest::Long;
use crate::worked::Row;
use ls_run::Status;

/// Requests that are refused, subscriptions and sessions that end, and several of each.
pub(crate) const REQUESTED: [Row; 9] = [
    // The refusals of an add and of a delete, by their codes.
    (
        b"item q MERGE x\nitem d DISTINCT y\nopen c\nreq c control LS_reqId=1&LS_session=S\
          9&LS_op=add&LS_subId=1&LS_mode=MERGE&LS_group=q&LS_schema=x\n\
          req c control LS_reqId=1&LS_op=add&LS_subId=1&LS_mode=MERGE&LS_group=d&LS_schema\
          =y\nreq c control LS_reqId=1&LS_op=add&LS_subId=1&LS_mode=MERGE&LS_group=nope&LS\
          _schema=z\nreq c control LS_reqId=1&LS_op=add&LS_subId=1&LS_mode=MERGE&LS_group=\
          q&LS_schema=z\nreq c control LS_reqId=1&LS_op=add&LS_subId=1&LS_mode=MERGE&LS_gr\
          oup=q&LS_schema=x\nreq c control LS_reqId=1&LS_op=add&LS_subId=1&LS_mode=MERGE&L\
          S_group=nope&LS_schema=x\nreq c control LS_reqId=1&LS_op=add&LS_subId=x&LS_mode=\
          MERGE&LS_group=q&LS_schema=x\nreq c control LS_reqId=1&LS_op=delete&LS_subId=9\n",
        Status::Ok,
        b"c:REQERR,1,20,Unknown session\nc:REQERR,1,24,Mode not allowed\n\
          c:REQERR,1,21,Bad group\nc:REQERR,1,23,Bad schema\n\
          c:REQOK,1\nc:REQERR,1,72,Subscription id in use\nc:REQERR,1,65,Malformed request\
          \nc:REQERR,1,19,Unknown subscription\n",
    ),
    // Another adapter set.
    (
        b"item item1 MERGE stock_name,last_price,time\nconn w ws\n\
          req w wsok\nreq w create_session LS_adapter_set=OTHER&LS_cause=api&LS_user=u\n\
          req w create_session LS_adapter_set=DEFAULT\ntake w 4\n",
        Status::Ok,
        b"w:WSOK\nw:CONERR,2,Unknown adapter set\nw:CONOK,S1,50000,5000,*\n\
          w:SERVNAME,tlcpd\nw:CONS,unlimited\n-idle\n",
    ),
    // A group or a schema with a name twice or none, and a schema of mode COMMAND without the key.
    (
        b"item q MERGE x,y\nitem t COMMAND key,command,n\nopen c\n\
          add c 1 q,q x MERGE\nreq c control LS_reqId=a&LS_op=add&LS_subId=1&LS_mode=MERGE\
          &LS_group=&LS_schema=x\nadd c 1 q x,x MERGE\nreq c control LS_reqId=b&LS_op=add&\
          LS_subId=1&LS_mode=MERGE&LS_group=q&LS_schema=\nadd c 1 t command,n COMMAND\n\
          add c 1 t key,command MERGE\nadd c 1 q,t x RAW\n",
        Status::Ok,
        b"c:REQERR,4,21,Bad group\nc:REQERR,a,21,Bad group\nc:REQERR,6,23,Bad schema\n\
          c:REQERR,b,23,Bad schema\nc:REQERR,8,23,Bad schema\n\
          c:REQERR,9,24,Mode not allowed\nc:REQERR,10,23,Bad schema\n",
    ),
    // Two items of one group: each has its place, and the one that gave a line goes to the back.
    (
        b"item a MERGE x\nitem b MERGE x\nitem d DISTINCT x\n\
          open c\nadd c 3 b,a x MERGE\nadd c 4 d x DISTINCT\n\
          take c 9\npub 1 1 a x=1\npub 1 1 b x=2\npub 1 2 b x=3\n\
          pub 1 1 d x=4\nenq c 3 1 2\nenq c 3 2\nenq c 4 1\ntake c 1\n\
          pub 1 3 b x=5\nenq c 3 1\ntake c 9\n",
        Status::Ok,
        b"c:REQOK,5\nc:REQOK,6\nc:CONOK,S1,50000,5000,*\nc:SERVNAME,tlcpd\n\
          c:CONS,unlimited\nc:SUBOK,3,2,1\nc:CONF,3,unlimited,filtered\n\
          c:SUBOK,4,1,1\nc:CONF,4,unlimited,filtered\n-idle\n\
          -no 1\n-no 1\n-no 2\n-no 1\n-moved 1\n-moved 2\n-moved 1\n\
          -moved 1\nc:U,3,1,3\n-no 3\n-moved 3\nc:U,3,2,1\nc:U,4,1,4\n\
          c:U,3,1,5\n-idle\n",
    ),
    // A subscription that ends and begins anew, whose client is told all of its row again.
    (
        b"item q MERGE x,y\nopen c\nadd c 1 q x,y MERGE\npub 1 1 q x=1&y=2\n\
          enq c 1 1\ntake c 9\nreq c control LS_reqId=a&LS_op=delete&LS_subId=1\n\
          enq c 1 1\nadd c 1 q x,y MERGE snapshot=true\ntake c 9\n",
        Status::Ok,
        b"c:REQOK,3\n-no 1\n-moved 1\nc:CONOK,S1,50000,5000,*\n\
          c:SERVNAME,tlcpd\nc:CONS,unlimited\nc:SUBOK,1,1,2\n\
          c:CONF,1,unlimited,filtered\nc:U,1,1,1|2\n-idle\nc:REQOK,a\n\
          -noslot\nc:REQOK,9\nc:UNSUB,1\nc:SUBOK,1,1,2\nc:CONF,1,unlimited,filtered\n\
          c:U,1,1,1|2\n-idle\n",
    ),
    // Three sessions on one item, of which one is destroyed, and a fourth.
    (
        b"item q MERGE x\nopen c\nopen d\nopen e\nadd c 1 q x MERGE\n\
          add d 1 q x MERGE\nadd e 1 q x MERGE\nreq d control LS_reqId=a&LS_op=destroy\n\
          take d 9\npub 1 1 q x=1\nenq c 1 1\nenq d 1 1\nadd d 2 q x MERGE\n\
          open f\nadd f 1 q x MERGE\nenq e 1 1\ntake c 9\ntake e 9\n",
        Status::Ok,
        b"c:REQOK,5\nd:REQOK,6\ne:REQOK,7\nd:REQOK,a\nd:END,31,Destroyed by request\n\
          -ended 31\n-no 1\n-moved 1\n-noslot\nd:REQERR,13,20,Unknown session\n\
          f:REQOK,15\n-moved 1\nc:CONOK,S1,50000,5000,*\nc:SERVNAME,tlcpd\n\
          c:CONS,unlimited\nc:SUBOK,1,1,1\nc:CONF,1,unlimited,filtered\n\
          c:U,1,1,1\n-idle\ne:CONOK,S3,50000,5000,*\ne:SERVNAME,tlcpd\n\
          e:CONS,unlimited\ne:SUBOK,1,1,1\ne:CONF,1,unlimited,filtered\n\
          e:U,1,1,1\n-idle\n",
    ),
    // A session that was destroyed: END first of all, and then nothing; requests don't know it.
    (
        b"item q MERGE x\nopen c\nadd c 1 q x MERGE\nreq c control LS_reqId=a&LS_op=destro\
          y\nreq c control LS_reqId=b&LS_op=destroy\nreq c control LS_reqId=d&LS_op=delete\
          &LS_subId=1\nenq c 1 1\ntake c 9\ntake c\nreq c create_session\n\
          take c 9\n",
        Status::Ok,
        b"c:REQOK,3\nc:REQOK,a\nc:REQERR,b,20,Unknown session\n\
          c:REQERR,d,20,Unknown session\n-noslot\nc:END,31,Destroyed by request\n\
          -ended 31\n-ended 31\nc:CONOK,S2,50000,5000,*\nc:SERVNAME,tlcpd\n\
          c:CONS,unlimited\n-idle\n",
    ),
    // A session by its number, from another connection.
    (
        b"item q MERGE x\nopen c\nconn d ws\nreq d control LS_reqId=a&LS_session=S1&LS_op=\
          add&LS_subId=1&LS_mode=MERGE&LS_group=q&LS_schema=x\n\
          req d control LS_reqId=b&LS_op=destroy\nreq d control LS_reqId=e&LS_session=x&LS\
          _op=destroy\nreq d control LS_reqId=f&LS_session=S1&LS_op=destroy\n\
          take c 9\ntake d\n",
        Status::Ok,
        b"d:REQOK,a\nd:REQERR,b,20,Unknown session\nd:REQERR,e,20,Unknown session\n\
          d:REQOK,f\nc:END,31,Destroyed by request\n-ended 31\n\
          -none\n",
    ),
    // A bind behind more lines than there are, and a session that was without a stream for too long.
    (
        b"open c\ntake c 3\nreq c bind_session LS_session=S1&LS_recovery_from=1\nlose c\n\
          tick 30000\ntake c\nreq c bind_session LS_session=S1\n\
          req c control LS_reqId=a&LS_op=force_rebind\n",
        Status::Ok,
        b"c:CONOK,S1,50000,5000,*\nc:SERVNAME,tlcpd\nc:CONS,unlimited\n\
          c:CONERR,4,Recovery not possible\n-lost\n-ended 73\n\
          c:CONERR,20,Unknown session\nc:REQERR,a,20,Unknown session\n",
    ),
];

/// One session more than there may be at once, and one in the place of another.
pub(crate) const SESSIONS: Long = (
    &[
        ("open c#\n", 1, 1025),
        (
            "open last\ntake last\nenq last 1 1\ntake c1024\nreq c1 control LS_reqId=a&LS\
              _op=destroy\nopen next\ntake next\n",
            0,
            1,
        ),
    ],
    &[(
        "last:CONERR,8,Too many sessions\n-none\n-noslot\nc1024:CONOK,S1024,50000,500\
              0,*\nc1:REQOK,a\nnext:CONOK,S1025,50000,5000,*\n",
        0,
        1,
    )],
);

/// One subscription more than a session may have, and one in the place of another.
pub(crate) const SUBSCRIPTIONS: Long = (
    &[
        ("item q MERGE x\nopen c\ntake c 3\n", 0, 1),
        (
            "req c control LS_reqId=#&LS_op=add&LS_subId=#&LS_mode=RAW&LS_group=q&LS_sche\
              ma=x\ntake c 2\n",
            1,
            257,
        ),
        (
            "req c control LS_reqId=a&LS_op=add&LS_subId=257&LS_mode=RAW&LS_group=q&LS_sc\
              hema=x\nreq c control LS_reqId=b&LS_op=delete&LS_subId=1\n\
              req c control LS_reqId=d&LS_op=add&LS_subId=257&LS_mode=RAW&LS_group=q&LS_sc\
              hema=x\ntake c 4\n",
            0,
            1,
        ),
    ],
    &[
        (
            "c:CONOK,S1,50000,5000,*\nc:SERVNAME,tlcpd\nc:CONS,unlimited\n",
            0,
            1,
        ),
        (
            "c:REQOK,#\nc:SUBOK,#,1,1\nc:CONF,#,unlimited,unfiltered\n",
            1,
            257,
        ),
        (
            "c:REQERR,a,71,Too many subscriptions\nc:REQOK,b\nc:REQOK,d\n\
              c:UNSUB,1\nc:SUBOK,257,1,1\nc:CONF,257,unlimited,unfiltered\n\
              -idle\n",
            0,
            1,
        ),
    ],
);

/// 512 lines that wait, of which one is given, and requests for one more and for two.
pub(crate) const LINES: Long = (
    &[
        ("item q MERGE x\nopen c\n", 0, 1),
        (
            "req c control LS_reqId=#&LS_op=add&LS_subId=#&LS_mode=RAW&LS_group=q&LS_sche\
              ma=x\n",
            1,
            257,
        ),
        (
            "req c control LS_reqId=a&LS_op=add&LS_subId=300&LS_mode=RAW&LS_group=nope&LS\
              _schema=x\nreq c control LS_reqId=b&LS_op=delete&LS_subId=1\n\
              take c 4\n",
            0,
            1,
        ),
        (
            "req c control LS_reqId=d&LS_op=add&LS_subId=300&LS_mode=RAW&LS_group=q&LS_sc\
              hema=x\nreq c control LS_reqId=e&LS_op=delete&LS_subId=2\n\
              req c control LS_reqId=f&LS_op=delete&LS_subId=3\n",
            0,
            1,
        ),
    ],
    &[
        ("c:REQOK,#\n", 1, 257),
        (
            "c:REQERR,a,70,Too many lines waiting\nc:REQERR,b,70,Too many lines waiting\n\
              c:CONOK,S1,50000,5000,*\nc:SERVNAME,tlcpd\nc:CONS,unlimited\n\
              c:SUBOK,1,1,1\n",
            0,
            1,
        ),
        (
            "c:REQERR,d,70,Too many lines waiting\nc:REQOK,e\nc:REQERR,f,70,Too many line\
              s waiting\n",
            0,
            1,
        ),
    ],
);

/// One slot more than a server may give, and one where others left by a request; 64 names of a group, and 65; and 64
/// slots more than there are left, until a session times out.
pub(crate) const SLOTS: Long = (
    &[
        ("item i# MERGE x\n", 1, 65),
        ("item q MERGE x\nopen c\nopen d\ntake c 3\n", 0, 1),
        (
            "req c control LS_reqId=#&LS_op=add&LS_subId=#&LS_mode=MERGE&LS_schema=x&LS_g\
              roup=i1+i2+i3+i4+i5+i6+i7+i8+i9+i10+i11+i12+i13+i14+i15+i16+i17+i18+i19+i20+\
              i21+i22+i23+i24+i25+i26+i27+i28+i29+i30+i31+i32+i33+i34+i35+i36+i37+i38+i39+\
              i40+i41+i42+i43+i44+i45+i46+i47+i48+i49+i50+i51+i52+i53+i54+i55+i56+i57+i58+\
              i59+i60+i61+i62+i63+i64\ntake c 2\n",
            1,
            65,
        ),
        (
            "req d control LS_reqId=a&LS_op=add&LS_subId=1&LS_mode=RAW&LS_group=q&LS_sche\
              ma=x\nreq d control LS_reqId=b&LS_op=add&LS_subId=1&LS_mode=MERGE&LS_schema=\
              x&LS_group=q+i1+i2+i3+i4+i5+i6+i7+i8+i9+i10+i11+i12+i13+i14+i15+i16+i17+i18+\
              i19+i20+i21+i22+i23+i24+i25+i26+i27+i28+i29+i30+i31+i32+i33+i34+i35+i36+i37+\
              i38+i39+i40+i41+i42+i43+i44+i45+i46+i47+i48+i49+i50+i51+i52+i53+i54+i55+i56+\
              i57+i58+i59+i60+i61+i62+i63+i64\nreq c control LS_reqId=c&LS_op=delete&LS_su\
              bId=7\nreq d control LS_reqId=d&LS_op=add&LS_subId=1&LS_mode=RAW&LS_group=q&\
              LS_schema=x\n",
            0,
            1,
        ),
        (
            "req d control LS_reqId=e&LS_op=add&LS_subId=2&LS_mode=MERGE&LS_schema=x&LS_g\
              roup=i1",
            0,
            1,
        ),
        ("+i#", 2, 65),
        (
            "\nlose c\ntick 29999\nreq d control LS_reqId=f&LS_op=add&LS_subId=2&LS_mode=MERGE&LS_schema=x&LS_g\
              roup=i1",
            0,
            1,
        ),
        ("+i#", 2, 65),
        (
            "\ntick 30000\nreq d control LS_reqId=g&LS_op=add&LS_subId=2&LS_mode=MERGE&LS_schema=x&LS_g\
              roup=i1",
            0,
            1,
        ),
        ("+i#", 2, 65),
        ("\n", 0, 1),
    ],
    &[
        (
            "c:CONOK,S1,50000,5000,*\nc:SERVNAME,tlcpd\nc:CONS,unlimited\n",
            0,
            1,
        ),
        (
            "c:REQOK,#\nc:SUBOK,#,64,1\nc:CONF,#,unlimited,filtered\n",
            1,
            65,
        ),
        (
            "d:REQERR,a,71,Too many subscriptions\nd:REQERR,b,21,Bad group\n\
              c:REQOK,c\nd:REQOK,d\nd:REQERR,e,71,Too many subscriptions\n\
              -lost\nd:REQERR,f,71,Too many subscriptions\nd:REQOK,g\n",
            0,
            1,
        ),
    ],
);

/// 64 names of a schema, and 65.
pub(crate) const FIELDS: Long = (
    &[
        ("item w MERGE f0", 0, 1),
        (",f#", 1, 64),
        (
            "\nopen c\nreq c control LS_reqId=a&LS_op=add&LS_subId=1&LS_mode=MERGE&LS_gro\
              up=w&LS_schema=f0",
            0,
            1,
        ),
        ("+f#", 1, 64),
        (
            "\nreq c control LS_reqId=b&LS_op=add&LS_subId=2&LS_mode=MERGE&LS_group=w&LS_\
              schema=f0",
            0,
            1,
        ),
        ("+f#", 1, 65),
        ("\n", 0, 1),
    ],
    &[("c:REQOK,a\nc:REQERR,b,23,Bad schema\n", 0, 1)],
);

//! Scripts of frequencies and bandwidths: when a slot is due, what CONF and CONS tell, and the limits of requests.
use crate::longest::Long;
use crate::worked::Row;
use ls_run::Status;

/// Frequencies, bandwidths, and changes of both.
pub(crate) const BUDGETS: [Row; 6] = [
    // A line at tick 0; the next one is due half a second later.
    (
        b"item q MERGE x\nopen c\nadd c 1 q x MERGE frequency=2.0\npub 1 1 q x=1\nenq c 1 1\
          \ntake c 20\ntick 499\npub 1 2 q x=2\nenq c 1 1\ntake c\ntick 500\ntake c\n",
        Status::Ok,
        b"c:REQOK,3\n-no 1\n-moved 1\nc:CONOK,S1,50000,5000,*\nc:SERVNAME,tlcpd\nc:CONS,unli\
          mited\nc:SUBOK,1,1,1\nc:CONF,1,2.0,filtered\nc:U,1,1,1\n-idle\n-no 2\n-moved 2\n-n\
          otdue 500\nc:U,1,1,2\n",
    ),
    // Another frequency counts from the last line on, and none is at once.
    (
        b"item q MERGE x\nopen c\nadd c 1 q x MERGE frequency=2.0\npub 1 1 q x=1\nenq c 1 1\
          \ntake c 20\ntick 499\npub 1 2 q x=2\nenq c 1 1\ntake c\ntick 500\ntake c 2\npub \
          1 3 q x=3\nenq c 1 1\ntake c\ntick 900\npub 1 4 q x=4\nenq c 1 1\ntake c\nreq c co\
          ntrol LS_reqId=7&LS_op=reconf&LS_subId=1&LS_requested_max_frequency=3\ntake c 2\np\
          ub 1 5 q x=5\nenq c 1 1\ntake c\ntick 1233\ntake c\ntick 1234\ntake c\nreq c contr\
          ol LS_reqId=8&LS_op=reconf&LS_subId=1&LS_requested_max_frequency=unlimited\npub 1 \
          6 q x=6\nenq c 1 1\ntake c 3\n",
        Status::Ok,
        b"c:REQOK,3\n-no 1\n-moved 1\nc:CONOK,S1,50000,5000,*\nc:SERVNAME,tlcpd\nc:CONS,unli\
          mited\nc:SUBOK,1,1,1\nc:CONF,1,2.0,filtered\nc:U,1,1,1\n-idle\n-no 2\n-moved 2\n-n\
          otdue 500\nc:U,1,1,2\n-idle\n-no 3\n-moved 3\n-notdue 1000\n-no 4\n-moved 4\n-notd\
          ue 1000\nc:REQOK,7\nc:CONF,1,3.0,filtered\nc:U,1,1,4\n-no 5\n-moved 5\n-notdue 123\
          4\n-notdue 1234\nc:U,1,1,5\nc:REQOK,8\n-no 6\n-moved 6\nc:CONF,1,unlimited,filtere\
          d\nc:U,1,1,6\n-idle\n",
    ),
    // Each bandwidth begins with a whole credit; a debt is gone after as many ms as the rate goes into it, and one.
    (
        b"item q MERGE x\nopen c\nadd c 1 q x RAW\nreq c control LS_reqId=9&LS_op=constrain&\
          LS_requested_max_bandwidth=0.08\npub 1 1 q x=1\npub 1 2 q x=2\npub 1 3 q x=3\nenq \
          c 1 1 3\ntake c 20\ntick 800\ntake c\ntick 801\ntake c 2\npub 1 4 q x=4\npub 1 5 \
          q x=5\npub 1 6 q x=6\nenq c 1 1 3\ntake c\nreq c control LS_reqId=10&LS_op=constra\
          in&LS_requested_max_bandwidth=0.08\ntake c 4\nreq c control LS_reqId=11&LS_op=cons\
          train&LS_requested_max_bandwidth=unlimited\ntake c 3\nconn d ws\nreq d create_sess\
          ion LS_requested_max_bandwidth=1.25\nadd d 1 q x MERGE snapshot=true\ntake d 9\n",
        Status::Ok,
        b"c:REQOK,3\nc:REQOK,9\n-no 1\n-no 2\n-no 3\n-moved 1\n-moved 2\n-moved 3\nc:CONOK,S\
          1,50000,5000,*\nc:SERVNAME,tlcpd\nc:CONS,unlimited\nc:CONS,0.08\nc:SUBOK,1,1,1\nc:\
          CONF,1,unlimited,unfiltered\nc:U,1,1,1\nc:U,1,1,2\n-notdue 801\n-notdue 801\nc:U,1\
          ,1,3\n-idle\n-no 4\n-no 5\n-no 6\n-moved 4\n-moved 5\n-moved 6\n-notdue 1701\nc:RE\
          QOK,10\nc:CONS,0.08\nc:U,1,1,4\nc:U,1,1,5\n-notdue 1602\nc:REQOK,11\nc:CONS,unlimi\
          ted\nc:U,1,1,6\n-idle\nd:REQOK,25\nd:CONOK,S2,50000,5000,*\nd:SERVNAME,tlcpd\nd:CO\
          NS,1.25\nd:SUBOK,1,1,1\nd:CONF,1,unlimited,filtered\nd:U,1,1,6\n-idle\n",
    ),
    // A whole opening, with a snapshot of two items and a frequency.
    (
        b"item item1 MERGE stock_name,last_price,time\nitem item2 MERGE stock_name,last_pric\
          e,time\npub 1 1 item1 stock_name=Anduct&last_price=3.04&time=20:00:33\npub 1 1 ite\
          m2 stock_name=Ations%20Europe&last_price=16.09&time=20:00:30\nconn w ws\nreq w wso\
          k\nreq w create_session LS_cid=mgQkwtwdysogQz2BJ4Ji%20kOj2Bg&LS_adapter_set=DEFAUL\
          T&LS_cause=api&LS_user=u\nreq w control LS_reqId=2&LS_op=add&LS_subId=1&LS_mode=ME\
          RGE&LS_group=item1+item2&LS_schema=last_price+time+stock_name&LS_data_adapter=QUOT\
          E_ADAPTER&LS_snapshot=true&LS_requested_max_frequency=3.0\ntake w 20\n",
        Status::Ok,
        b"-no 1\n-no 1\nw:WSOK\nw:REQOK,2\nw:CONOK,S1,50000,5000,*\nw:SERVNAME,tlcpd\nw:CONS\
          ,unlimited\nw:SUBOK,1,2,3\nw:CONF,1,3.0,filtered\nw:U,1,1,3.04|20:00:33|Anduct\nw:\
          U,1,2,16.09|20:00:30|Ations Europe\n-idle\n",
    ),
    // Slots that are due, that wait, and that have nothing.
    (
        b"item a MERGE x\nitem b DISTINCT y\nitem t COMMAND key,command,n\nconn w ws\nreq w \
          wsok\nreq w create_session\nreq w control LS_reqId=1&LS_op=add&LS_subId=1&LS_mode=\
          MERGE&LS_group=a&LS_schema=x&LS_requested_max_frequency=1\nreq w control LS_reqId=\
          2&LS_op=add&LS_subId=2&LS_mode=DISTINCT&LS_group=b&LS_schema=y&LS_requested_max_fr\
          equency=4.0&LS_snapshot=true\nreq w control LS_reqId=3&LS_op=add&LS_subId=3&LS_mod\
          e=RAW&LS_group=a&LS_schema=x&LS_requested_max_frequency=1\nreq w control LS_reqId=\
          4&LS_op=add&LS_subId=4&LS_mode=COMMAND&LS_group=t&LS_schema=key+command+n&LS_reque\
          sted_max_frequency=0.5\ntake w 20\npub 1 1 a x=1\npub 1 1 b y=1\npub 1 1 t key=k&c\
          ommand=ADD&n=1\npub 1 2 t key=l&command=ADD&n=2\nenq w 1 1\nenq w 2 1\nenq w 3 1\n\
          enq w 4 1 2\ntake w 9\npub 1 2 a x=2\npub 1 2 b y=2\nenq w 1 1\nenq w 2 1\ntake w\
          \ntick 249\ntake w\ntick 250\ntake w 2\ntick 999\ntake w\ntick 1000\ntake w 2\ntic\
          k 1999\ntake w\ntick 2000\ntake w 2\ntick 2001\npub 1 3 t key=k&command=UPDATE&n=9\
          \npub 1 4 t key=k&command=UPDATE&n=1\nenq w 4 1 2\ntake w\ntick 4000\ntake w\npub \
          1 3 a x=3\nenq w 3 1\ntake w 2\nreq w control LS_reqId=5&LS_op=reconf&LS_subId=3&L\
          S_requested_max_frequency=0.001\ntake w 2\nreq w control LS_reqId=6&LS_op=reconf&L\
          S_subId=4&LS_requested_max_frequency=999999999.999999999\nreq w control LS_reqId=7\
          &LS_op=reconf&LS_subId=2&LS_requested_max_frequency=007.5\nreq w control LS_reqId=\
          8&LS_op=reconf&LS_subId=1&LS_requested_max_frequency=unfiltered\nreq w control LS_\
          reqId=9&LS_op=reconf&LS_subId=9&LS_requested_max_frequency=1\nreq w control LS_req\
          Id=10&LS_op=reconf&LS_subId=1&LS_requested_max_frequency=0\nreq w control LS_reqId\
          =11&LS_op=reconf&LS_subId=1\nreq w control LS_reqId=12&LS_op=constrain&LS_requeste\
          d_max_bandwidth=0\nreq w control LS_reqId=13&LS_op=constrain\nreq w control LS_req\
          Id=14&LS_op=constrain&LS_requested_max_bandwidth=12.5\ntake w 9\n",
        Status::Ok,
        b"w:WSOK\nw:REQOK,1\nw:REQOK,2\nw:REQOK,3\nw:REQOK,4\nw:CONOK,S1,50000,5000,*\nw:SER\
          VNAME,tlcpd\nw:CONS,unlimited\nw:SUBOK,1,1,1\nw:CONF,1,1.0,filtered\nw:SUBOK,2,1,1\
          \nw:CONF,2,4.0,filtered\nw:SUBOK,3,1,1\nw:CONF,3,unlimited,unfiltered\nw:SUBCMD,4,\
          1,3,1,2\nw:CONF,4,0.5,filtered\nw:EOS,2,1\n-idle\n-no 1\n-no 1\n-no 1\n-no 2\n-mov\
          ed 1\n-moved 1\n-moved 1\n-moved 1\n-moved 2\nw:U,1,1,1\nw:U,3,1,1\nw:U,4,1,k|ADD|\
          1\nw:U,2,1,1\n-notdue 2000\n-no 2\n-no 2\n-moved 2\n-moved 2\n-notdue 250\n-notdu\
          e 250\nw:U,2,1,2\n-notdue 1000\n-notdue 1000\nw:U,1,1,2\n-notdue 2000\n-notdue 200\
          0\nw:U,4,1,l||2\n-idle\n-no 3\n-no 4\n-moved 3\n-moved 4\n-notdue 4000\n-idle\n-n\
          o 3\n-moved 2\nw:U,3,1,2\n-idle\nw:REQOK,5\nw:CONF,3,unlimited,unfiltered\n-idle\n\
          w:REQOK,6\nw:REQOK,7\nw:REQOK,8\nw:REQERR,9,19,Unknown subscription\nw:REQERR,10,6\
          5,Malformed request\nw:REQERR,11,65,Malformed request\nw:REQERR,12,65,Malformed re\
          quest\nw:REQERR,13,65,Malformed request\nw:REQOK,14\nw:CONS,12.5\nw:CONF,4,9999999\
          99.999,filtered\nw:CONF,2,7.5,filtered\nw:CONF,1,unlimited,filtered\n-idle\n",
    ),
    // What CONF and CONS tell behind each kind of request.
    (
        b"item a MERGE x\nitem t COMMAND key,command\nopen c\nadd c 1 a x MERGE frequency=un\
          limited\nadd c 2 a x RAW frequency=1.5\nadd c 3 t key,command COMMAND frequency=un\
          filtered\nadd c 4 a,a x MERGE frequency=1\nadd c 4 a x MERGE frequency=0.0009\nad\
          d c 4 a x MERGE frequency=0.08\nreq c control LS_reqId=b&LS_op=reconf&LS_subId=1&L\
          S_requested_max_frequency=2\nreq c control LS_reqId=c&LS_op=reconf&LS_subId=2&LS_r\
          equested_max_frequency=unlimited\nreq c control LS_reqId=d&LS_op=reconf&LS_subId=3\
          &LS_requested_max_frequency=1.250\nreq c control LS_reqId=e&LS_op=reconf&LS_subId=\
          4&LS_requested_max_frequency=unfiltered\nreq c control LS_reqId=f&LS_op=constrain&\
          LS_requested_max_bandwidth=unlimited\nreq c control LS_reqId=g&LS_op=constrain&LS_\
          requested_max_bandwidth=0.001\nreq c control LS_reqId=h&LS_op=constrain&LS_request\
          ed_max_bandwidth=999999999.999\nreq c control LS_reqId=i&LS_op=constrain&LS_reques\
          ted_max_bandwidth=40\nreq c control LS_reqId=j&LS_op=constrain&LS_requested_max_ba\
          ndwidth=2.\nreq c control LS_reqId=k&LS_op=reconf&LS_subId=4\nreq c control LS_req\
          Id=l&LS_op=delete&LS_subId=4\nreq c control LS_reqId=m&LS_op=reconf&LS_subId=4&LS_\
          requested_max_frequency=1\ntake c 20\nreq c control LS_reqId=n&LS_op=destroy\nreq \
          c control LS_reqId=o&LS_op=reconf&LS_subId=1&LS_requested_max_frequency=1\nreq c c\
          ontrol LS_reqId=p&LS_op=constrain&LS_requested_max_bandwidth=1\ntake c 2\n",
        Status::Ok,
        b"c:REQOK,4\nc:REQOK,5\nc:REQOK,6\nc:REQERR,7,21,Bad group\nc:REQERR,8,65,Malformed \
          request\nc:REQOK,9\nc:REQOK,b\nc:REQOK,c\nc:REQOK,d\nc:REQOK,e\nc:REQOK,f\nc:REQOK\
          ,g\nc:REQOK,h\nc:REQOK,i\nc:REQERR,j,65,Malformed request\nc:REQERR,k,65,Malforme\
          d request\nc:REQOK,l\nc:REQERR,m,19,Unknown subscription\nc:CONOK,S1,50000,5000,*\
          \nc:SERVNAME,tlcpd\nc:CONS,unlimited\nc:CONS,unlimited\nc:CONS,0.001\nc:CONS,99999\
          9999.999\nc:CONS,40.0\nc:SUBOK,1,1,1\nc:CONF,1,unlimited,filtered\nc:SUBOK,2,1,1\n\
          c:CONF,2,unlimited,unfiltered\nc:SUBCMD,3,1,2,1,2\nc:CONF,3,unlimited,filtered\nc:\
          SUBOK,4,1,1\nc:CONF,4,0.08,filtered\nc:CONF,1,2.0,filtered\nc:CONF,2,unlimited,unf\
          iltered\nc:CONF,3,1.25,filtered\nc:CONF,4,unlimited,filtered\nc:UNSUB,4\nc:REQOK,n\
          \nc:REQERR,o,20,Unknown session\nc:REQERR,p,20,Unknown session\nc:END,31,Destroye\
          d by request\n-ended 31\n",
    ),
];

/// 510 changes of a frequency behind an add leave 512 lines that wait, and a request for more is refused.
pub(crate) const CHANGES: Long = (
    &[
        (
            "item q MERGE x\nopen c\nadd c 1 q x MERGE frequency=1\n",
            0,
            1,
        ),
        (
            "req c control LS_reqId=#&LS_op=reconf&LS_subId=1&LS_requested_max_frequency=#\n",
            1,
            511,
        ),
        (
            "req c control LS_reqId=9&LS_op=add&LS_subId=2&LS_mode=MERGE&LS_group=q&LS_schema=x\n\
              req c control LS_reqId=8&LS_op=reconf&LS_subId=1&LS_requested_max_frequency=7\n\
              take c 6\nreq c control LS_reqId=7&LS_op=reconf&LS_subId=1&LS_requested_max_fre\
              quency=7\n",
            0,
            1,
        ),
    ],
    &[
        ("c:REQOK,3\n", 0, 1),
        ("c:REQOK,#\n", 1, 511),
        (
            "c:REQERR,9,70,Too many lines waiting\nc:REQERR,8,70,Too many lines waiting\n\
              c:CONOK,S1,50000,5000,*\nc:SERVNAME,tlcpd\nc:CONS,unlimited\n\
              c:SUBOK,1,1,1\nc:CONF,1,1.0,filtered\nc:CONF,1,1.0,filtered\nc:REQOK,7\n",
            0,
            1,
        ),
    ],
);

/// 509 changes of a bandwidth behind the lines that open a session are as many lines as may be owed.
pub(crate) const OWED: Long = (
    &[
        ("open c\n", 0, 1),
        (
            "req c control LS_reqId=#&LS_op=constrain&LS_requested_max_bandwidth=#\n",
            1,
            511,
        ),
        (
            "take c 4\nreq c control LS_reqId=a&LS_op=constrain&LS_requested_max_bandwidth=0.5\n",
            0,
            1,
        ),
    ],
    &[
        ("c:REQOK,#\n", 1, 510),
        (
            "c:REQERR,510,70,Too many lines waiting\nc:CONOK,S1,50000,5000,*\nc:SERVNAME,tl\
              cpd\nc:CONS,unlimited\nc:CONS,1.0\nc:REQOK,a\n",
            0,
            1,
        ),
    ],
);

/// A line that tells of lost updates waits until its slot is due, and takes nothing of the bandwidth.
pub(crate) const LOST: Long = (
    &[
        (
            "item q MERGE x\nconn c ws\nreq c create_session LS_requested_max_bandwidth=0.08\n\
          add c 1 q x RAW\n",
            0,
            1,
        ),
        ("pub 1 # q x=1\nenq c 1 1\n", 1, 301),
        ("take c 9\n", 0, 1),
        ("pub 1 # q x=1\nenq c 1 1\n", 301, 346),
        ("take c\ntick 801\ntake c 9\n", 0, 1),
    ],
    &[
        ("c:REQOK,4\n", 0, 1),
        ("-no #\n-moved #\n", 1, 301),
        (
            "c:CONOK,S1,50000,5000,*\nc:SERVNAME,tlcpd\nc:CONS,0.08\nc:SUBOK,1,1,1\n\
              c:CONF,1,unlimited,unfiltered\nc:OV,1,1,44\nc:U,1,1,1\nc:U,1,1,\n-notdue 701\n",
            0,
            1,
        ),
        ("-no #\n-moved #\n", 301, 346),
        ("-notdue 701\nc:OV,1,1,43\nc:U,1,1,\n-notdue 1501\n", 0, 1),
    ],
);

//! The codes for which requests are refused and sessions end, with their messages (this project's profile).
ghost use Rattle.std.specs.Prelude.{◌≡◌};
ghost use Rattle.ls_record.specs.Acting.{message_of};

/// The table of codes. A row has a code and its message.
///
/// `codes!(user { names })` calls the macro `user` with these names and the rows.
macro_rules! codes {
    ($user:ident $names:tt) => {
        $user! { $names
            2 = "Unknown adapter set";
            4 = "Recovery not possible";
            8 = "Too many sessions";
            19 = "Unknown subscription";
            20 = "Unknown session";
            21 = "Bad group";
            23 = "Bad schema";
            24 = "Mode not allowed";
            31 = "Destroyed by request";
            65 = "Malformed request";
            70 = "Too many lines waiting";
            71 = "Too many subscriptions";
            72 = "Subscription id in use";
            73 = "Session timed out";
            74 = "Counter spent";
            75 = "Out of memory";
        }
    };
}

macro_rules! messages {
    ({ $given:ident } $($code:literal = $message:literal;)*) => {
        match $given { $($code => $message,)* _ => "" }
    };
}

/// The message of a code, for REQERR, CONERR, ERROR and END. It is empty for a code that isn't in the table.
pub fn message_of(code: u16) -> &'static str
    ensures { result.now ≡ message_of code }
{
    codes!(messages { code })
}

//! The laws about lines. Each function's contract is a law; its body is empty.
ghost use Rattle.std.specs.Prelude.{◌≡◌, ℕ, List, None, false, true, is_some};
ghost use Rattle.std.specs.List.{list_all};
ghost use Rattle.ls_line.specs.declared.line.Line.{Line};
ghost use Rattle.ls_line.specs.Lines.{text_of_line, is_of_message, is_message_byte, IsWritable};
ghost use Rattle.ls_line.specs.Reading.{Says, refusal, line_of};

/// The text of each line whose parts are in their ranges is read as that line; MSGDONE and MSGFAIL aside, which are
/// not read.
pub fn each_written_line_is_read_again()
    ensures { (l : Line) → IsWritable l → is_of_message l ≡ false → Says (text_of_line l) l }
{}

/// A line that is read has the text that it was read from: no line is read from two texts.
pub fn each_line_has_one_text()
    ensures { (bytes : List ℕ) (l : Line) → Says bytes l → text_of_line l ≡ bytes }
{}

/// A line that is read from bytes without CR and LF has its parts in their ranges.
pub fn each_line_read_can_be_written()
    ensures { (bytes : List ℕ) (l : Line) → Says bytes l → list_all is_message_byte bytes ≡ true → IsWritable l }
{}

/// Bytes against which there is no cause are a line.
pub fn each_text_without_a_cause_is_a_line()
    ensures { (bytes : List ℕ) → refusal bytes ≡ None → is_some (line_of bytes) ≡ true }
{}

//! The laws about the definitions. Each function's contract is a law; its body is empty. That the items have shapes,
//! and so 1 to 64 distinct fields, is among the premises: a lawful world says it, and a step that declares an item
//! keeps to it.
ghost use Rattle.std.specs.Prelude.{◌≡◌, ◌+◌, ◌-◌, ◌^◌, ◌<◌, ◌≤◌, ◌++◌, ◌∷◌, ℕ, List, [], length, None, Some, false, true};
ghost use Rattle.std.specs.Prelude.{slice_get, option_map, map, nat_le, Bool, ◌&&◌, ◌⊎◌, ◌*◌, Option, All, take};
ghost use Rattle.std.specs.Prelude.{reverse, sum_by, codes, unwrap_or, not, ◌==◌};
ghost use Rattle.std.specs.List.{Contains, filter, list_any, range_with_len};
ghost use Rattle.std.specs.Option.{ForSome};
ghost use Rattle.ls_budget.specs.Budget.{Spend, frequency_tick, credit};
ghost use Rattle.ls_budget.specs.Due.{allows, IsFirst};
ghost use Rattle.ls_budget.specs.Window.{latest_tick};
ghost use Rattle.ls_value.specs.Values.{projected};
ghost use Rattle.ls_value.specs.declared.row.Value.{Value};
ghost use Rattle.ls_event.specs.declared.event.Entry.{Entry};
ghost use Rattle.ls_event.specs.declared.event.Mode.{Mode};
ghost use Rattle.ls_event.specs.declared.event.Mode.TheVariants as mode;
ghost use Rattle.ls_event.specs.declared.event.Event.TheVariants.{Update};
ghost use Rattle.ls_event.specs.declared.updates.OwnRow.{OwnRow};
ghost use Rattle.ls_event.specs.Shapes.{Shape};
ghost use Rattle.ls_value.specs.declared.row.Cell.{Cell};
ghost use Rattle.ls_event.specs.History.{merged, between};
ghost use Rattle.ls_event.specs.Updates.{updates_between, recent_rows, last_clear, last_of};
ghost use Rattle.ls_event.specs.CommandCuts.{has_key};
ghost use Rattle.ls_event.specs.Keyed.{keyed, row_at, key_of};
ghost use Rattle.ls_event.specs.Slots.{Slot};
ghost use Rattle.ls_record.specs.Came.{Came, whats};
ghost use Rattle.ls_event.specs.Cuts.{cut, is_pending};
ghost use Rattle.ls_record.specs.Lines.{Line, Tells, came, last_row, texts, text_at, texts_behind, updated};
ghost use Rattle.ls_record.specs.Cutting.{Wanted, Ask, client_row, schema_of, turn};
ghost use Rattle.ls_world.specs.World.{World, empty};
ghost use Rattle.ls_record.specs.Records.{Item, Session, LiveSlot, RoundLine, history_of, shape_at};
ghost use Rattle.ls_record.specs.Records.{Board, round_of, taken_in, removed, is_due, is_waiting, count_lines, ended};
ghost use Rattle.ls_record.specs.Records.{unless_timed_out, is_used, joined_all, added, enqueued_in, reconfigured};
ghost use Rattle.ls_record.specs.Records.{Alive, Stream, change, due_at, live_turn, on_board, opening_lines};
ghost use Rattle.ls_step.specs.declared.step.Step.{Step};
ghost use Rattle.ls_step.specs.declared.step.Step.TheVariants as step;
ghost use Rattle.ls_step.specs.declared.step.Repeat.{Repeat};
ghost use Rattle.ls_request.specs.declared.request.Bind.{Bind};
ghost use Rattle.ls_step.specs.declared.out.Out.TheVariants as out;
ghost use Rattle.ls_record.specs.Turning.{Send, Idle, NotDue, loop_text, session_turn};
ghost use Rattle.ls_world.specs.Steps.{name_of, binds, refuses_stream, does};
ghost use Rattle.ls_world.specs.Steps.{does_all};
ghost use Rattle.ls_world.specs.Script.{with_line_read, world_of};
ghost use Rattle.ls_world.specs.Failing.{PassedSilentCuts, MayLeave};
ghost use Rattle.ls_value.specs.Each.{Each};
ghost use Rattle.ls_record.specs.Apart.{Apart};
ghost use Rattle.ls_lawful.specs.Lawful.{LawfulSlot};
ghost use Rattle.ls_world.specs.Lawful.{Lawful};
ghost use Rattle.std.specs.FinMap as finite;
ghost use Rattle.ls_mirror.specs.declared.table.Table.{Table};
ghost use Rattle.ls_mirror.specs.Client.{Row, Lost, Cleared};
ghost use Rattle.ls_lawful.specs.ClientKeys.{KeysAgree};
ghost use Rattle.ls_lawful.specs.ClientTables.{HasTable};
ghost use Rattle.ls_lawful.specs.RawMode.{Accounts};
ghost use Rattle.ls_lawful.specs.CommandMode.{cursor_of_key, AgreesAt, NoTurn, IsToKnow};
ghost use Rattle.ls_record.specs.Tables.{keys_shown_at, projected_row, table_at, with_word, delete_row};
ghost use Rattle.ls_world.specs.Ranges.{InRange};
ghost use Rattle.ls_lawful.specs.Truths.{TellsOf, IsTrueOf};
ghost use Rattle.ls_laws.specs.Alone.{seen, unnumbered, connection_of, is_own, lacks_slots, changes_items, sets_clock};
ghost use Rattle.ls_laws.specs.Alone.{RunStep, firsts, seconds, told, DifferElsewhere};
ghost use Rattle.ls_turns.specs.Moves.{Left};
ghost use Rattle.ls_value.specs.declared.limits.TheConstants.{GREATEST_ORDINAL, GREATEST_NUMBER, GREATEST_TICK};
ghost use Rattle.ls_words.specs.declared.names.TheConstants.{LONGEST_NAME};
ghost use Rattle.ls_event.specs.declared.limits.TheConstants.{MOST_FIELDS, MOST_ADAPTERS, MOST_LAG, MOST_WEIGHT};
ghost use Rattle.ls_event.specs.declared.limits.TheConstants.{MOST_KEYS, MOST_SNAPSHOT_ROWS, MOST_BUFFER_SIZE};
ghost use Rattle.ls_event.specs.declared.limits.TheConstants.{RAW_KEEPS, MOST_SLOTS};
ghost use Rattle.ls_keep.specs.declared.limits.TheConstants.{MOST_KEPT_LINES, MOST_KEPT_BYTES};
ghost use Rattle.ls_budget.specs.declared.limits.TheConstants.{MOST_BYTES};
ghost use Rattle.ls_request.specs.declared.limits.TheConstants.{LEAST_KEEPALIVE, GREATEST_KEEPALIVE};
ghost use Rattle.ls_request.specs.declared.limits.TheConstants.{DEFAULT_KEEPALIVE, LEAST_LENGTH, DEFAULT_LENGTH};
ghost use Rattle.ls_request.specs.declared.limits.TheConstants.{MOST_OWN_NAME};
ghost use Rattle.ls_step.specs.declared.limits.TheConstants.{GREATEST_IN_LINE, LONGEST_NOTE, MOST_TIMES};
ghost use Rattle.ls_step.specs.declared.limits.TheConstants.{MOST_CONNECTIONS};
ghost use Rattle.ls_form.specs.declared.form.TheConstants.{LONGEST_FORM};
ghost use Rattle.ls_config.specs.declared.items.TheConstants.{MOST_ITEMS};
ghost use Rattle.ls_record.specs.declared.TheConstants.{MOST_GROUP_ITEMS, MOST_SUBSCRIPTIONS, MOST_SESSIONS};
ghost use Rattle.ls_record.specs.declared.TheConstants.{MOST_UNSENT, MOST_UNBOUND};
ghost use Rattle.ls_line.specs.declared.limits.TheConstants.{LONGEST_TEXT};
ghost use Rattle.ls_laws.specs.Rounds.{slot_of, GivesBehind, MoveTo, joins_of};
ghost use Rattle.ls_laws.specs.Budgets.{spends_of, is_any_due, configured, is_left_by};
ghost use Rattle.ls_laws.specs.Budgets.{WaitsForFirst, KeepsBandwidth, KeepsWindows, ClockRises, AreApart, AreToldOf};
ghost use Rattle.ls_laws.specs.Streams.{Had, held, BindsWithItsCount, HoldsAllLines, HasItsLines, given_on};
ghost use Rattle.ls_laws.specs.Streams.{GivesUpLittle, AreTooMuch};
ghost use Rattle.ls_laws.specs.Streams.{NamesLiving, IsAccepted, lines_left, lines_from, bytes_on_stream, MayGive};
ghost use Rattle.ls_laws.specs.Streams.{IsBeyond, IsGone};

/// Each world that steps make of the empty one is lawful, where the parts of each step are in their ranges (a new item
/// has 1 to 64 distinct fields, and in kind COMMAND a key and a command among them; the texts of an update are UTF-8):
/// what every client decodes from the bytes of its lines are states that its item had, and they never go back.
pub fn each_world_is_lawful()
    ensures { (steps : List Repeat) → Each InRange steps → Lawful (does_all empty steps) }
{}

/// Each world that the lines of a script make of the empty one is lawful: they ask for no step outside the ranges, as
/// the grammar keeps items and texts in them.
pub fn each_script_is_lawful()
    ensures { (lines : List (List ℕ)) → Lawful (world_of empty lines) }
{}

/// A world in which slots passed silent cuts is lawful where the one before was. So what a step may leave that failed
/// for want of memory, as `Hub::step` of ls_hub says it, is lawful: some turns of a take and silent cuts of the one
/// after them, some of its enqueues, or nothing.
pub fn want_of_memory_leaves_a_lawful_world()
    ensures silent_cuts { (w v : World) → Lawful w → PassedSilentCuts w v → Lawful v }
    ensures steps { (steps : List Repeat) (s : Step) (times : ℕ) (v : World) → Each InRange steps
        → MayLeave (does_all empty steps) s times v → Lawful v }
    ensures scripts { (lines : List (List ℕ)) (s : Step) (times : ℕ) (v : World)
        → MayLeave (with_line_read (world_of empty lines)) s times v → Lawful v }
{}

/// The limits, each with its number. Times are in ms, lengths in bytes.
pub fn the_limits()
    ensures numbers { (GREATEST_NUMBER ≡ 2 ^ 60) × (GREATEST_TICK ≡ 10 ^ 18) × (GREATEST_ORDINAL ≡ 999999999) }
    ensures names { (LONGEST_NAME ≡ 64) × (MOST_OWN_NAME ≡ 32) }
    ensures items { (MOST_ITEMS ≡ 4096) × (MOST_FIELDS ≡ 64) × (MOST_KEYS ≡ 1024) × (MOST_ADAPTERS ≡ 64) }
    ensures events { (MOST_WEIGHT ≡ 4096) × (MOST_LAG ≡ 64) }
    ensures slots { (MOST_SLOTS ≡ 4096) × (MOST_BUFFER_SIZE ≡ 256) × (RAW_KEEPS ≡ 256) × (MOST_SNAPSHOT_ROWS ≡ 32) }
    ensures sessions { (MOST_SESSIONS ≡ 1024) × (MOST_SUBSCRIPTIONS ≡ 256) × (MOST_GROUP_ITEMS ≡ 64) }
    ensures lines { (MOST_UNSENT ≡ 512) × (MOST_KEPT_LINES ≡ 1024) × (MOST_KEPT_BYTES ≡ 262144) }
    ensures lengths { (LONGEST_TEXT ≡ 16384) × (MOST_BYTES ≡ 16386) × (LONGEST_FORM ≡ 50000) }
    ensures streams { (MOST_UNBOUND ≡ 30000) × (LEAST_LENGTH ≡ 1000) × (DEFAULT_LENGTH ≡ 50000000) }
    ensures keepalives { (LEAST_KEEPALIVE ≡ 1000) × (GREATEST_KEEPALIVE ≡ 30000) × (DEFAULT_KEEPALIVE ≡ 5000) }
    ensures scripts { (MOST_TIMES ≡ 1000) × (MOST_CONNECTIONS ≡ 65536) × (GREATEST_IN_LINE ≡ 999999999999999999)
        × (LONGEST_NOTE ≡ 33) }
{}

/// In mode MERGE, once nothing is pending behind a slot's first line, a row came, and the last one is the item's state
/// after the last event that was enqueued, at the places of the schema: that is what the client has. Of a slot that was
/// asked a snapshot of an item with events, and of one that enqueued an event since it joined, this is true once
/// nothing is pending: its first line came. Of another slot there is nothing to tell before such an event.
pub fn settled_clients_have_the_items_state()
    ensures came { (h : List Entry) (w : Wanted) (s : Slot) (cs : List Came) → LawfulSlot h w s cs
        → s.plan.mode ≡ mode.Merge → is_pending h s ≡ false → s.has_started ≡ true
        → last_row cs ≡ Some (projected (merged s.plan.shape.fields h s.last) w.places) }
    ensures has { (h : List Entry) (w : Wanted) (s : Slot) (cs : List Came) → LawfulSlot h w s cs
        → s.plan.mode ≡ mode.Merge → is_pending h s ≡ false → s.has_started ≡ true
        → client_row (length w.places) cs ≡ projected (merged s.plan.shape.fields h s.last) w.places }
    ensures snapshot { (h : List Entry) (w : Wanted) (s : Slot) (cs : List Came) → LawfulSlot h w s cs
        → s.plan.mode ≡ mode.Merge → is_pending h s ≡ false → (w.snapshot ≡ None → ⊥) → 0 < s.plan.base
        → last_row cs ≡ Some (projected (merged s.plan.shape.fields h s.last) w.places) }
    ensures later { (h : List Entry) (w : Wanted) (s : Slot) (cs : List Came) → LawfulSlot h w s cs
        → s.plan.mode ≡ mode.Merge → is_pending h s ≡ false → s.plan.base < s.last
        → last_row cs ≡ Some (projected (merged s.plan.shape.fields h s.last) w.places) }
{}

/// In a lawful world each row that came to a client is a state that the item had, at a number that its history reached,
/// and no line goes back behind an earlier one: in mode MERGE it is the merged state, in mode RAW the own row of the
/// update of that number, in mode DISTINCT such a row or one of the snapshot, and in mode COMMAND a key's row or its
/// absence, told by the word that the client's own table asks for: ADD where the item alone has a row of the key,
/// DELETE where the client alone has one, and UPDATE where both have one and they differ.
pub fn no_state_is_invented()
    ensures worlds { (w : World) (s : Session) (v : LiveSlot) → Lawful w → Contains w.sessions s → Contains s.board.round v
        → IsTrueOf v.slot.plan.mode (shape_at w.items v.item) (history_of w.items v.item) v.wanted.places
        (came v.sub v.rank s.board.lines) }
    ensures merge { (p : Shape) (h : List Entry) (places : List ℕ) (cs : List Came) → IsTrueOf mode.Merge p h places cs
        → (c : Came) (r : List Value) → Contains cs c → c.what ≡ Row r
        → (c.upto ≤ length h) × (r ≡ projected (merged p.fields h c.upto) places) }
    ensures raw { (p : Shape) (h : List Entry) (places : List ℕ) (cs : List Came) → IsTrueOf mode.Raw p h places cs
        → (c : Came) (r : List Value) → Contains cs c → c.what ≡ Row r
        → (c.upto ≤ length h) × ((u : OwnRow) × (updates_between h (c.upto - 1) c.upto ≡ u ∷ [])
        × (r ≡ projected u.row places)) }
    ensures distinct { (p : Shape) (h : List Entry) (places : List ℕ) (cs : List Came)
        → IsTrueOf mode.Distinct p h places cs
        → (c : Came) (r : List Value) → Contains cs c → c.what ≡ Row r
        → (c.upto ≤ length h) × (((u : OwnRow) × (updates_between h (c.upto - 1) c.upto ≡ u ∷ [])
        × (r ≡ projected u.row places))
        ⊎ ((own : List Value) × (k : ℕ) × (slice_get (recent_rows h c.upto) k ≡ Some own)
        × (r ≡ projected own places))) }
    ensures command { (p : Shape) (h : List Entry) (places : List ℕ) (cs : List Came)
        → IsTrueOf mode.Command p h places cs
        → (newer older : List Came) (c : Came) (r : List Value) → cs ≡ newer ++ c ∷ older → c.what ≡ Row r
        → (c.upto ≤ length h) × ((k : List ℕ)
        × let at = keys_shown_at p places in
        let old = table_at at k (whats older) in
        let new = projected_row places (row_at k (keyed p h c.upto)) in
        ((row : List Value) × (old ≡ None) × (new ≡ Some row) × (r ≡ with_word at (codes "ADD") row))
        ⊎ (((row : List Value) × (old ≡ Some row) × (new ≡ None) × (r ≡ delete_row at (length places) k))
        ⊎ ((was : List Value) × (row : List Value) × (old ≡ Some was) × (new ≡ Some row) × (was ≡ row → ⊥)
        × (r ≡ with_word at (codes "UPDATE") row)))) }
    ensures rises { (p : Shape) (h : List Entry) (places : List ℕ) (m : Mode) (cs : List Came) → IsTrueOf m p h places cs
        → (newer between older : List Came) (late early : Came) → cs ≡ newer ++ late ∷ between ++ early ∷ older
        → (m ≡ mode.Merge → early.upto < late.upto) × (m ≡ mode.Raw → early.upto < late.upto)
        × (m ≡ mode.Distinct → (early.upto ≤ late.before) × (late.before ≤ late.upto))
        × (m ≡ mode.Command → early.at ≤ late.at) }
{}

/// In mode RAW what came to a client accounts for each update after its first cursor up to the slot's: it is told by
/// its own row or counted among the lost, once and in order. Each line begins where the one before it led, the first one
/// where the slot joined, and the last one leads to the slot's cursor; a row's line passes over one update and a count's
/// over as many as it counts.
pub fn each_update_is_told_or_counted()
    ensures accounts { (h : List Entry) (w : Wanted) (s : Slot) (cs : List Came) → LawfulSlot h w s cs → s.plan.mode ≡ mode.Raw
        → Accounts w.places (updates_between h s.plan.base s.cursor) (whats cs) }
    ensures rows { (h : List Entry) (w : Wanted) (s : Slot) (cs : List Came) → LawfulSlot h w s cs
        → s.plan.mode ≡ mode.Raw
        → (c : Came) (r : List Value) → Contains cs c → c.what ≡ Row r
        → (u : OwnRow) × (updates_between h c.before c.upto ≡ u ∷ []) × (u.no ≡ c.upto) × (r ≡ projected u.row w.places) }
    ensures lost { (h : List Entry) (w : Wanted) (s : Slot) (cs : List Came) → LawfulSlot h w s cs
        → s.plan.mode ≡ mode.Raw
        → (c : Came) (n : ℕ) → Contains cs c → c.what ≡ Lost n → length (updates_between h c.before c.upto) ≡ n }
    ensures leads { (h : List Entry) (w : Wanted) (s : Slot) (cs : List Came) → LawfulSlot h w s cs
        → s.plan.mode ≡ mode.Raw
        → (newer older : List Came) (late early : Came) → cs ≡ newer ++ late ∷ early ∷ older
        → (late.before ≡ early.upto) × (late.before < late.upto) × (late.upto ≤ late.at) }
    ensures ends { (h : List Entry) (w : Wanted) (s : Slot) (c : Came) (cs : List Came) → LawfulSlot h w s (c ∷ cs)
        → s.plan.mode ≡ mode.Raw → (c.upto ≡ s.cursor) × (s.cursor ≤ s.last) × (s.last ≤ length h) }
    ensures begins { (h : List Entry) (w : Wanted) (s : Slot) (c : Came) (cs : List Came) → LawfulSlot h w s (cs ++ c ∷ [])
        → s.plan.mode ≡ mode.Raw → c.before ≡ s.plan.base }
{}

/// And once a slot of mode RAW has no cut, each update up to the last event that was enqueued: none comes after the
/// slot's cursor.
pub fn settled_clients_know_of_each_update()
    ensures accounts { (h : List Entry) (w : Wanted) (s : Slot) (cs : List Came) → LawfulSlot h w s cs → s.plan.mode ≡ mode.Raw
        → cut h s ≡ None
        → Accounts w.places (updates_between h s.plan.base s.last) (whats cs) }
    ensures rest { (h : List Entry) (w : Wanted) (s : Slot) (cs : List Came) → LawfulSlot h w s cs
        → s.plan.mode ≡ mode.Raw → cut h s ≡ None → updates_between h s.cursor s.last ≡ [] }
{}

/// In mode RAW updates are lost only where more than 256 waited, and then all but the last 256: a line that counts lost
/// updates counts at least one, and a row comes where no more than 256 waited. Those waited that are numbered behind
/// the line's first cursor, up to the last that was enqueued then.
pub fn a_loss_is_told_only_past_256()
    ensures lost { (h : List Entry) (w : Wanted) (s : Slot) (cs : List Came) → LawfulSlot h w s cs
        → s.plan.mode ≡ mode.Raw
        → (c : Came) (n : ℕ) → Contains cs c → c.what ≡ Lost n
        → (1 ≤ n) × (length (updates_between h c.before c.at) ≡ 256 + n) }
    ensures rows { (h : List Entry) (w : Wanted) (s : Slot) (cs : List Came) → LawfulSlot h w s cs
        → s.plan.mode ≡ mode.Raw
        → (c : Came) (r : List Value) → Contains cs c → c.what ≡ Row r
        → length (updates_between h c.before c.at) ≤ 256 }
{}

/// In mode DISTINCT a row that passes over updates leaves out only such as weren't among the last n that had come then,
/// where n is the size of the buffer: those before the row's own are all but the last n.
pub fn only_old_rows_are_left_out()
    ensures { (h : List Entry) (w : Wanted) (s : Slot) (cs : List Came) → LawfulSlot h w s cs
        → s.plan.mode ≡ mode.Distinct
        → (c : Came) (r : List Value) → Contains cs c → c.what ≡ Row r → c.before < c.upto
        → updates_between h c.before (c.upto - 1)
        ≡ take (length (updates_between h c.before c.at) - s.plan.size) (updates_between h c.before c.at) }
{}

/// In mode MERGE each row is the item's merged state at a number among the last n that had been enqueued then, where n
/// is the size of the buffer, and at none before the subscription: it is that of a later event or, where a snapshot was
/// asked, of the last one that the item had when the slot joined.
pub fn each_row_is_among_the_last_states()
    ensures state { (h : List Entry) (w : Wanted) (s : Slot) (cs : List Came) → LawfulSlot h w s cs
        → s.plan.mode ≡ mode.Merge → (c : Came) → Contains cs c
        → (c.what ≡ Row (projected (merged s.plan.shape.fields h c.upto) w.places))
        × (c.upto ≤ c.at) × (c.at ≤ length h) }
    ensures recent { (h : List Entry) (w : Wanted) (s : Slot) (cs : List Came) → LawfulSlot h w s cs
        → s.plan.mode ≡ mode.Merge → (c : Came) → Contains cs c → (0 < c.upto) × (c.at < c.upto + s.plan.size) }
    ensures later { (h : List Entry) (w : Wanted) (s : Slot) (cs : List Came) → LawfulSlot h w s cs
        → s.plan.mode ≡ mode.Merge → (c : Came) → Contains cs c → w.snapshot ≡ None → s.plan.base < c.upto }
    ensures snapshot { (h : List Entry) (w : Wanted) (s : Slot) (cs : List Came) → LawfulSlot h w s cs
        → s.plan.mode ≡ mode.Merge → (c : Came) (rows : ℕ) → Contains cs c → w.snapshot ≡ Some rows
        → s.plan.base ≤ c.upto }
{}

/// In mode COMMAND each key that had its turn is in the client's table as the item had it at the cursor of that key,
/// which is no further than the last event that was enqueued. Another key is absent from the table: its turn is owed,
/// or there is nothing to tell of it.
pub fn each_key_is_told_as_it_was()
    ensures agrees { (h : List Entry) (w : Wanted) (s : Slot) (cs : List Came) → LawfulSlot h w s cs
        → s.plan.mode ≡ mode.Command
        → (k : List ℕ)
        → AgreesAt h w s cs k (cursor_of_key k s.key_cursors)
        × (cursor_of_key k s.key_cursors ≡ None → NoTurn h w s k) }
    ensures told { (h : List Entry) (w : Wanted) (s : Slot) (cs : List Came) → LawfulSlot h w s cs
        → s.plan.mode ≡ mode.Command
        → (k : List ℕ) (q : ℕ) → cursor_of_key k s.key_cursors ≡ Some q
        → (s.cursor ≤ q) × (q ≤ s.last) × (s.last ≤ length h)
        × (table_at (schema_of w s.plan) k (whats cs) ≡ projected_row w.places (row_at k (keyed s.plan.shape h q))) }
    ensures absent { (h : List Entry) (w : Wanted) (s : Slot) (cs : List Came) → LawfulSlot h w s cs
        → s.plan.mode ≡ mode.Command → (k : List ℕ) → cursor_of_key k s.key_cursors ≡ None
        → (table_at (schema_of w s.plan) k (whats cs) ≡ None)
        × (((s.cursor ≡ s.plan.base) × (w.snapshot ≡ None))
        ⊎ ((has_key (last_of s.owed (map (λ x. x.key) (keyed s.plan.shape h s.plan.base))) k ≡ true)
        ⊎ ((row_at k (keyed s.plan.shape h s.cursor) ≡ None)
        ⊎ ((n : ℕ) × (last_clear h s.cursor s.last ≡ Some n))))) }
{}

/// In mode COMMAND no key goes back: of two lines that told a client of the same key, by its row or by a Clear, which
/// tells of each key, the later one told of it after no fewer events than the earlier one.
pub fn no_key_goes_back()
    ensures keys { (w : World) (s : Session) (v : LiveSlot) → Lawful w → Contains w.sessions s → Contains s.board.round v
        → v.slot.plan.mode ≡ mode.Command
        → (k : List ℕ) (newer between older : List Came) (late early : Came)
        → came v.sub v.rank s.board.lines ≡ newer ++ late ∷ between ++ early ∷ older
        → TellsOf (schema_of v.wanted v.slot.plan) k late.what → TellsOf (schema_of v.wanted v.slot.plan) k early.what
        → early.upto ≤ late.upto }
    ensures rows { (w : World) (s : Session) (v : LiveSlot) → Lawful w → Contains w.sessions s → Contains s.board.round v
        → v.slot.plan.mode ≡ mode.Command
        → (newer between older : List Came) (late early : Came) (r : List Value)
        → came v.sub v.rank s.board.lines ≡ newer ++ late ∷ between ++ early ∷ older
        → late.what ≡ Row r → early.upto ≤ late.upto }
    ensures clears { (w : World) (s : Session) (v : LiveSlot) → Lawful w → Contains w.sessions s
        → Contains s.board.round v → v.slot.plan.mode ≡ mode.Command
        → (newer between older : List Came) (late early : Came)
        → came v.sub v.rank s.board.lines ≡ newer ++ late ∷ between ++ early ∷ older
        → late.what ≡ Cleared → early.upto ≤ late.upto }
{}

/// Once such a slot has no cut, the client's table is the item's after the last event that was enqueued: at each key
/// with a snapshot, and else at each that an update since named.
pub fn settled_tables_are_the_items()
    ensures keys { (h : List Entry) (w : Wanted) (s : Slot) (cs : List Came) → LawfulSlot h w s cs
        → s.plan.mode ≡ mode.Command → cut h s ≡ None
        → (k : List ℕ) → IsToKnow h w s k
        → table_at (schema_of w s.plan) k (whats cs) ≡ projected_row w.places (row_at k (keyed s.plan.shape h s.last)) }
    ensures snapshot { (h : List Entry) (w : Wanted) (s : Slot) (cs : List Came) → LawfulSlot h w s cs
        → s.plan.mode ≡ mode.Command → cut h s ≡ None → (k : List ℕ) → (w.snapshot ≡ None → ⊥)
        → table_at (schema_of w s.plan) k (whats cs) ≡ projected_row w.places (row_at k (keyed s.plan.shape h s.last)) }
    ensures named { (h : List Entry) (w : Wanted) (s : Slot) (cs : List Came) → LawfulSlot h w s cs
        → s.plan.mode ≡ mode.Command → cut h s ≡ None → (e : Entry) (cells : List Cell)
        → Contains (between h s.plan.base s.last) e → e.event ≡ Update cells
        → table_at (schema_of w s.plan) (key_of s.plan.shape cells) (whats cs)
        ≡ projected_row w.places (row_at (key_of s.plan.shape cells) (keyed s.plan.shape h s.last)) }
{}

/// In a lawful world the table that a client of mode COMMAND makes of the bytes of its lines, by the places of key and
/// command that its SUBCMD told, has for each key that had its turn the row that the item had at the cursor of that
/// key, and no row for another key.
pub fn each_client_has_the_rows_of_its_keys()
    ensures agrees { (w : World) (s : Session) (v : LiveSlot) (t : Table) → Lawful w → Contains w.sessions s
        → Contains s.board.round v → v.slot.plan.mode ≡ mode.Command → HasTable (texts s.board.lines) v.sub v.rank t
        → KeysAgree (history_of w.items v.item) v.wanted v.slot t.keys }
    ensures told { (w : World) (s : Session) (v : LiveSlot) (t : Table) → Lawful w → Contains w.sessions s
        → Contains s.board.round v → v.slot.plan.mode ≡ mode.Command → HasTable (texts s.board.lines) v.sub v.rank t
        → (k : List ℕ) (q : ℕ) → cursor_of_key k v.slot.key_cursors ≡ Some q
        → (v.slot.cursor ≤ q) × (q ≤ v.slot.last)
        × (finite.get t.keys k ≡ projected_row v.wanted.places
        (row_at k (keyed v.slot.plan.shape (history_of w.items v.item) q))) }
    ensures absent { (w : World) (s : Session) (v : LiveSlot) (t : Table) → Lawful w → Contains w.sessions s
        → Contains s.board.round v → v.slot.plan.mode ≡ mode.Command → HasTable (texts s.board.lines) v.sub v.rank t
        → (k : List ℕ) → cursor_of_key k v.slot.key_cursors ≡ None → finite.get t.keys k ≡ None }
{}

/// Once such a slot has no cut, that table has the item's rows after the last event that was enqueued: at each key with
/// a snapshot, and else at each that an update since named.
pub fn settled_clients_have_the_items_rows()
    ensures keys { (w : World) (s : Session) (v : LiveSlot) (t : Table) → Lawful w → Contains w.sessions s
        → Contains s.board.round v → v.slot.plan.mode ≡ mode.Command → HasTable (texts s.board.lines) v.sub v.rank t
        → cut (history_of w.items v.item) v.slot ≡ None
        → (k : List ℕ) → IsToKnow (history_of w.items v.item) v.wanted v.slot k
        → finite.get t.keys k ≡ projected_row v.wanted.places
        (row_at k (keyed (shape_at w.items v.item) (history_of w.items v.item) v.slot.last)) }
    ensures snapshot { (w : World) (s : Session) (v : LiveSlot) (t : Table) → Lawful w → Contains w.sessions s
        → Contains s.board.round v → v.slot.plan.mode ≡ mode.Command → HasTable (texts s.board.lines) v.sub v.rank t
        → cut (history_of w.items v.item) v.slot ≡ None → (k : List ℕ) → (v.wanted.snapshot ≡ None → ⊥)
        → finite.get t.keys k ≡ projected_row v.wanted.places
        (row_at k (keyed (shape_at w.items v.item) (history_of w.items v.item) v.slot.last)) }
{}

/// Once a slot isn't pending, its cursor is the number of the last event that was enqueued. In mode COMMAND each key
/// has a cursor of its own.
pub fn settled_slots_are_at_the_last_event()
    ensures { (h : List Entry) (w : Wanted) (s : Slot) (cs : List Came) → LawfulSlot h w s cs
        → (s.plan.mode ≡ mode.Command → ⊥) → is_pending h s ≡ false → s.cursor ≡ s.last }
{}

/// A slot's turn that tells nothing leaves no cut.
pub fn the_turn_ends_its_cuts()
    ensures { (h : List Entry) (w : Wanted) (s : Slot) (cs : List Came) → (turn h w s cs).came ≡ None
        → cut h (turn h w s cs).slot ≡ None }
{}

/// A turn that numbers a line makes the move of which `no_slot_is_passed_over` of ls_turns speaks: the line's slot
/// gives, and each slot before it in the session's round was asked in vain or wasn't due. The slots of a new
/// subscription join one after another, and as one ends, its slots leave. A turn that numbers no line, an enqueue and
/// another frequency move none.
pub fn turns_move_the_round()
    ensures gives { (due : LiveSlot → Bool) (now : ℕ) (items : List Item) (b : Board) (t : RoundLine) → Apart b.round
        → (round_of due items b.lines b.round).came ≡ Some t → GivesBehind due now items b t }
    ensures order { (due : LiveSlot → Bool) (now : ℕ) (items : List Item) (b : Board) (t : RoundLine)
        → (round_of due items b.lines b.round).came ≡ Some t
        → (asked : List LiveSlot) × (giver : LiveSlot) × (others : List LiveSlot) × (b.round ≡ asked ++ giver ∷ others)
        × Each (λ v. (live_turn due items b.lines v).came ≡ None) asked
        × (map slot_of (taken_in due now items b).round ≡ map slot_of (asked ++ others ++ giver ∷ [])) }
    ensures waits { (due : LiveSlot → Bool) (now : ℕ) (items : List Item) (b : Board)
        → (round_of due items b.lines b.round).came ≡ None → MoveTo b.round [] (taken_in due now items b).round }
    ensures joins { (items : List Item) (free : ℕ → ℕ) (sub fields : ℕ) (asks : List Ask) (b : Board) → Apart b.round
        → is_used sub b.round ≡ false
        → MoveTo b.round (joins_of (joined_all items free sub 1 asks)) (added items free sub fields asks b).round }
    ensures leaves { (sub : ℕ) (b : Board) → MoveTo b.round (Left sub ∷ []) (removed sub b).round }
    ensures enqueues { (items : List Item) (sub rank : ℕ) (b : Board)
        → MoveTo b.round [] (enqueued_in items sub rank b).round }
    ensures configures { (sub : ℕ) (frequency : Option ℕ) (b : Board)
        → MoveTo b.round [] (reconfigured sub frequency b).round }
    ensures unmoved { (before after : List LiveSlot) → MoveTo before [] after → map slot_of after ≡ map slot_of before }
    ensures joined { (before news after : List LiveSlot) → MoveTo before (joins_of news) after
        → map slot_of after ≡ map slot_of (before ++ news) }
    ensures left { (sub : ℕ) (before after : List LiveSlot) → MoveTo before (Left sub ∷ []) after
        → map slot_of after ≡ filter (λ a. not (a.sub == sub)) (map slot_of before) }
{}

/// A step changes one session at most, the one that it means: an enqueue, a take, a loss or a request that names no
/// session means its connection's, a control request or a bind_session the one that it names, and a create_session
/// makes a new one. Each other session is as it was, but that a step which sets the clock ends each session that was
/// without a stream for too long, and changes none else. The items are as they were unless the step is a new item, an
/// update or a Clear, and the clock is unless it sets it.
pub fn a_step_changes_its_session_alone()
    ensures sessions { (w : World) (n : ℕ) (s : Step) (times : ℕ) → n < length w.sessions → is_own n w s ≡ false
        → sets_clock s ≡ false → slice_get (does w s times).after.sessions n ≡ slice_get w.sessions n }
    ensures ticks { (w : World) (n ms times : ℕ)
        → slice_get (does w (step.Tick ms) times).after.sessions n
        ≡ option_map (unless_timed_out ms) (slice_get w.sessions n) }
    ensures items { (w : World) (s : Step) (times : ℕ) → changes_items s ≡ false
        → (does w s times).after.items ≡ w.items }
    ensures clock { (w : World) (s : Step) (times : ℕ) → sets_clock s ≡ false
        → (does w s times).after.tick ≡ w.tick }
{}

/// What a session's own step prints, and what the session sees after it, follow from what it sees: the items, the
/// clock, its connection with its epoch, and itself but for the numbers of its slots. So in any two worlds that it sees
/// alike, whatever their other sessions are, its enqueues, takes, losses and requests, a bind_session among them, print
/// the same and lead to worlds that it sees alike: which of its slots are due rests on its own lines, its frequencies,
/// its bandwidth and the clock. Only an add counts the slots of others: the server must lack slots for it (code 71) in
/// both worlds or in neither.
pub fn a_session_is_told_what_it_sees()
    ensures printed { (n connection : ℕ) (w v : World) (s : Step) (times : ℕ)
        → seen n connection w ≡ seen n connection v → connection_of s ≡ Some connection → is_own n w s ≡ true
        → lacks_slots w s ≡ lacks_slots v s → (does w s times).outs ≡ (does v s times).outs }
    ensures sees { (n connection : ℕ) (w v : World) (s : Step) (times : ℕ)
        → seen n connection w ≡ seen n connection v → connection_of s ≡ Some connection → is_own n w s ≡ true
        → lacks_slots w s ≡ lacks_slots v s
        → seen n connection (does w s times).after ≡ seen n connection (does v s times).after }
{}

/// In two runs that differ only in what is done elsewhere, a session is told the same and sees the same in the end.
/// Elsewhere are the steps of other sessions, and those that make connections and sessions; the session's own steps, on
/// its connections, are made in both runs: its client may bind on another connection than its stream was lost on.
///
/// Not independent of others are: the numbers of slots, which only the note of a refused update prints; how many
/// sessions and slots there may still be (codes 8 and 71), and a new session's place, by which it is named; and an
/// update that is refused because a slot of another session lags. Then the item's history is another one, so of shared
/// steps the law asks that they make the same items in both runs, and set the clock alike. A step that sets the clock
/// is shared, as a session that has no stream may end by it.
pub fn a_session_is_told_nothing_of_others()
    ensures told { (n : ℕ) (connections : List ℕ) (w v : World) (steps : List RunStep) → n < length w.sessions
        → Each (λ c. c < length w.connections) connections → Each (λ c. seen n c w ≡ seen n c v) connections
        → DifferElsewhere n connections w v steps → told n w (firsts steps) ≡ told n v (seconds steps) }
    ensures sees { (n : ℕ) (connections : List ℕ) (w v : World) (steps : List RunStep) → n < length w.sessions
        → Each (λ c. c < length w.connections) connections → Each (λ c. seen n c w ≡ seen n c v) connections
        → DifferElsewhere n connections w v steps
        → Each (λ c. seen n c (does_all w (firsts steps)) ≡ seen n c (does_all v (seconds steps))) connections }
    ensures alike { (n connection : ℕ) (w v : World) → seen n connection w ≡ seen n connection v
        → (w.items ≡ v.items) × (w.tick ≡ v.tick)
        × (slice_get w.connections connection ≡ slice_get v.connections connection)
        × (option_map unnumbered (slice_get w.sessions n) ≡ option_map unnumbered (slice_get v.sessions n)) }
    ensures unnumbered { (s : Session)
        → unnumbered s ≡ on_board (λ b. record b { round = map {A = LiveSlot} (λ v. record v { number = 0 }) b.round }) s }
{}

/// A turn gives no U, OV, CS or EOS line of a slot that isn't due: the line of its round is that of a slot of the
/// session which is due at the turn's tick, so a turn numbers no line, or one that tells of such a slot. A slot is due
/// exactly where the tick that its frequency allows is reached, and the session's credit is above 0, which it always is
/// without a bandwidth (General Concepts, frequency and bandwidth).
pub fn only_due_slots_give_lines()
    ensures round { (now : ℕ) (items : List Item) (s : Session) (t : RoundLine)
        → (round_of (is_due now s) items s.board.lines s.board.round).came ≡ Some t
        → (v : LiveSlot) × Contains s.board.round v × (is_due now s v ≡ true) × (t.live ≡ record v { slot = t.live.slot }) }
    ensures numbered { (now : ℕ) (items : List Item) (epoch : ℕ) (s : Session)
        → ((session_turn now items epoch s).session.board.lines ≡ s.board.lines)
        ⊎ ((v : LiveSlot) × (c : Came) × Contains s.board.round v × (is_due now s v ≡ true)
        × ((session_turn now items epoch s).session.board.lines ≡ Tells v.sub v.rank now c ∷ s.board.lines)) }
    ensures due { (now : ℕ) (s : Session) (v : LiveSlot)
        → is_due now s v ≡ (nat_le (frequency_tick v.frequency (updated v.sub v.rank s.board.lines)) now
        && allows s.rate.limit (spends_of s) now) }
{}

/// A turn that gives nothing before a tick, `NotDue`, gives a tick that is later than now, at which a slot that waits
/// is due, and no slot that waits is due before it: it is the first tick at which one is, where nothing comes
/// meanwhile. That wants a bandwidth above 0, if there is one, and that no spend is later than now, as
/// `each_update_is_given_with_credit` says of each world: so it is true of each session of the worlds that steps make
/// which set no clock back, and of those of scripts. A turn that gives nothing at all, `Idle`, leaves no slot that
/// waits.
pub fn a_wait_ends_at_the_first_due_tick()
    ensures later { (now : ℕ) (items : List Item) (epoch : ℕ) (s : Session) (tick : ℕ)
        → (session_turn now items epoch s).gives ≡ NotDue tick → now < tick }
    ensures least { (now : ℕ) (items : List Item) (epoch : ℕ) (s : Session) (tick : ℕ)
        → (session_turn now items epoch s).gives ≡ NotDue tick
        → ((v : LiveSlot) × Contains s.board.round v × (is_waiting now items s v ≡ true) × (due_at now s v ≡ tick))
        × ((v : LiveSlot) → Contains s.board.round v → is_waiting now items s v ≡ true → tick ≤ due_at now s v) }
    ensures first { (now : ℕ) (items : List Item) (epoch : ℕ) (s : Session) (tick : ℕ)
        → ForSome s.rate.limit (λ r. 0 < r) → latest_tick (spends_of s) ≤ now
        → (session_turn now items epoch s).gives ≡ NotDue tick
        → (now ≤ tick) × (is_any_due now items s tick ≡ true)
        × ((m : ℕ) → now ≤ m → m < tick → is_any_due now items s m ≡ false) }
    ensures any { (now : ℕ) (items : List Item) (s : Session) (tick : ℕ)
        → is_any_due now items s tick ≡ list_any (λ v. is_waiting now items s v && is_due tick s v) s.board.round }
    ensures waits { (w : World) (s : Session) (epoch tick : ℕ) → WaitsForFirst w s
        → (session_turn w.tick w.items epoch s).gives ≡ NotDue tick → IsFirst (is_any_due w.tick w.items s) w.tick tick }
    ensures steps { (steps : List Repeat) → ClockRises 0 steps
        → Each (WaitsForFirst (does_all empty steps)) (does_all empty steps).sessions }
    ensures scripts { (lines : List (List ℕ))
        → Each (WaitsForFirst (world_of empty lines)) (world_of empty lines).sessions }
    ensures idle { (now : ℕ) (items : List Item) (epoch : ℕ) (s : Session)
        → (session_turn now items epoch s).gives ≡ Idle → (v : LiveSlot) → Contains s.board.round v
        → is_waiting now items s v ≡ false }
{}

/// In each world that steps make of the empty one, where no step sets the clock back, each U line of a session since
/// its bandwidth was set was given while the session's credit was above 0, and none is later than the clock; a
/// bandwidth that is set is above 0. The grammar of scripts sets no clock back, so it is true of each script's world.
pub fn each_update_is_given_with_credit()
    ensures steps { (steps : List Repeat) → ClockRises 0 steps
        → Each (KeepsBandwidth (does_all empty steps).tick) (does_all empty steps).sessions }
    ensures scripts { (lines : List (List ℕ))
        → Each (KeepsBandwidth (world_of empty lines).tick) (world_of empty lines).sessions }
    ensures credit { (now r : ℕ) (s : Session) (newer older : List Spend) (x : Spend) → KeepsBandwidth now s
        → s.rate.limit ≡ Some r → spends_of s ≡ newer ++ x ∷ older
        → (0 < r) × (0 < credit r older x.tick) × (latest_tick older ≤ x.tick) × (x.tick ≤ now) }
{}

/// So while a bandwidth is set, the session's U lines in any window of ticks, all but the last of them, take less than
/// the credit of a second and what the bandwidth restores in the window: their bytes with CR LF, in thousandths of a
/// bit.
pub fn updates_of_a_window_are_bounded()
    ensures steps { (steps : List Repeat) → ClockRises 0 steps → Each KeepsWindows (does_all empty steps).sessions }
    ensures scripts { (lines : List (List ℕ)) → Each KeepsWindows (world_of empty lines).sessions }
    ensures windows { (s : Session) → KeepsWindows s
        → (r : ℕ) (newer within older : List Spend) (last : Spend) (from to : ℕ) → s.rate.limit ≡ Some r
        → spends_of s ≡ newer ++ (last ∷ (within ++ older))
        → All (λ x. (from ≤ x.tick) × (x.tick ≤ to)) (last ∷ within)
        → sum_by (λ x. 8000 * x.bytes) within < 1000 * r + r * (to - from) }
{}

/// In each world that steps make of the empty one, two U lines of a slot under one frequency are at least the
/// frequency's interval of ticks apart, while no line between them begins or ends the subscription or tells of its
/// frequency, as after a reconf. That frequency is what the last CONF told, and it is that of each slot of the
/// subscription. A frequency is in thousandths of an update per second, so its times the ms between them are at least
/// 1,000,000.
pub fn updates_of_a_slot_are_apart()
    ensures apart { (steps : List Repeat) → Each (λ s. AreApart s.board.lines) (does_all empty steps).sessions }
    ensures told { (steps : List Repeat) → Each AreToldOf (does_all empty steps).sessions }
    ensures scripts { (lines : List (List ℕ)) → Each (λ s. AreApart s.board.lines) (world_of empty lines).sessions }
    ensures told_by_scripts { (lines : List (List ℕ)) → Each AreToldOf (world_of empty lines).sessions }
    ensures interval { (lines : List Line) → AreApart lines
        → (sub rank f early late : ℕ) (c d : Came) (q r : List Value) (newer between older : List Line)
        → lines ≡ newer ++ (Tells sub rank late c ∷ (between ++ (Tells sub rank early d ∷ older)))
        → c.what ≡ Row q → d.what ≡ Row r → is_left_by sub between ≡ true → configured sub older ≡ Some f
        → 0 < f → (early ≤ late) × (1000000 ≤ f * (late - early)) }
    ensures frequency { (s : Session) (v : LiveSlot) → AreToldOf s → Contains s.board.round v
        → v.frequency ≡ configured v.sub s.board.lines }
{}

/// A client appends the lines that come to it, each stream of which may be lost at any line, and binds each new one
/// with the count of the lines that it holds. Then in each world that steps make of the empty one it holds the first
/// lines of the session, in order, without a gap and each once (TLCP 2.1, recovery). It may have had any of the
/// session's streams: another client may have had the others.
pub fn a_client_that_binds_with_its_count_holds_all_lines()
    ensures steps { (steps : List Repeat) → Each HoldsAllLines (does_all empty steps).sessions }
    ensures scripts { (lines : List (List ℕ)) → Each HoldsAllLines (world_of empty lines).sessions }
    ensures holds { (s : Session) → HoldsAllLines s
        → (hads : List Had) → Each (λ had. Contains s.streams had.stream) hads → BindsWithItsCount [] hads
        → (held [] hads ≡ range_with_len 1 (length (held [] hads)))
        × (length (held [] hads) ≤ length s.board.lines)
        × (map (text_at s.board.lines) (held [] hads) ≡ take (length (held [] hads)) (texts_behind 0 s.board.lines)) }
{}

/// A bind that is accepted prints nothing, and the takes on its connection directly after it print exactly the opening
/// lines, PROG with the client's count where one was told, and then the lines behind that count, in order; a bind
/// without a count goes on behind the line that was given last. So a client that holds the lines up to a count, and
/// binds with it, is given PROG with it, and then the lines that it lacks. A stream with a content length gives LOOP
/// in place of the next line once its lines have reached that, and nothing more.
pub fn a_new_stream_goes_on_behind_its_count()
    ensures accepted { (w : World) (connection n : ℕ) (s : Session) (b : Bind) → IsAccepted w connection n s b
        → (binds w connection b).outs ≡ [] }
    ensures lines { (w : World) (connection n k : ℕ) (s : Session) (b : Bind) → IsAccepted w connection n s b
        → k ≤ lines_left s b → MayGive k s b
        → (does (binds w connection b).after (step.Take connection) (3 + length (count_lines b.recover) + k)).outs
        ≡ map (λ text. out.Line (name_of w connection) text) (lines_from k s b) }
    ensures over { (w : World) (connection n k most more : ℕ) (s : Session) (b : Bind)
        → IsAccepted w connection n s b → k ≤ lines_left s b → MayGive k s b
        → b.length ≡ Some most → most ≤ bytes_on_stream (lines_from k s b)
        → (does (binds w connection b).after (step.Take connection)
        (3 + length (count_lines b.recover) + k + (2 + more))).outs
        ≡ map (λ text. out.Line (name_of w connection) text) (lines_from k s b ++ loop_text ∷ [])
        ++ out.Unbound ∷ [] }
    ensures given { (k : ℕ) (s : Session) (b : Bind)
        → lines_from k s b ≡ opening_lines b.session b.keepalive s.rate.limit ++ count_lines b.recover
        ++ take k (texts_behind (unwrap_or b.recover s.sent) s.board.lines) }
    ensures left { (s : Session) (b : Bind)
        → lines_left s b ≡ length (texts_behind (unwrap_or b.recover s.sent) s.board.lines) }
    ensures may { (k : ℕ) (s : Session) (b : Bind)
        → ((most : ℕ) → b.length ≡ Some most → sum_by (λ t. length t + 2) (lines_from (k - 1) s b) < most)
        → MayGive k s b }
{}

/// A bind of a living session is refused with code 4, and changes nothing, exactly where it tells a count behind which
/// the client can't go on: the next line was given up, or no line has the count's number.
pub fn a_recovery_is_refused_exactly()
    ensures refused { (w : World) (connection n : ℕ) (s : Session) (b : Bind) → NamesLiving w b n s
        → IsBeyond s b.recover → binds w connection b ≡ refuses_stream w connection 4 }
    ensures only { (w : World) (connection n : ℕ) (s : Session) (b : Bind) → NamesLiving w b n s
        → (binds w connection b).outs ≡ (refuses_stream w connection 4).outs → IsBeyond s b.recover }
    ensures beyond { (s : Session) (count : ℕ) → IsBeyond s (Some count)
        → (count < s.given_up) ⊎ (length s.board.lines < count) }
    ensures given_up { (s : Session) (count : ℕ) → count < s.given_up → IsBeyond s (Some count) }
    ensures unknown { (s : Session) (count : ℕ) → length s.board.lines < count → IsBeyond s (Some count) }
    ensures counts { (s : Session) → IsBeyond s None → ⊥ }
{}

/// In each world that steps make of the empty one no line of a session is given up that wasn't given, and none but such
/// as stand before more lines, or more bytes of lines, than are kept at most. So a client that lacks no more than that
/// is never refused with code 4.
pub fn lines_are_given_up_only_beyond_the_limits()
    ensures steps { (steps : List Repeat) → Each GivesUpLittle (does_all empty steps).sessions }
    ensures scripts { (lines : List (List ℕ)) → Each GivesUpLittle (world_of empty lines).sessions }
    ensures resumes { (s : Session) (count : ℕ) → GivesUpLittle s → count ≤ length s.board.lines
        → (AreTooMuch (texts_behind count s.board.lines) → ⊥) → IsBeyond s (Some count) → ⊥ }
    ensures given { (s : Session) → GivesUpLittle s → s.given_up ≤ s.sent }
    ensures limits { (s : Session) (n : ℕ) → GivesUpLittle s → n < s.given_up
        → (1024 < length (texts_behind n s.board.lines)) ⊎ (262144 < sum_by length (texts_behind n s.board.lines)) }
{}

/// In each world that steps make of the empty one, the lines given on a stream that a session ever had are those
/// numbered behind the stream's beginning, in order and without a gap. A turn that adds a number to what was given on a
/// session's newest stream gives the text of the line of that number; another turn adds none.
pub fn streams_have_their_lines_without_a_gap()
    ensures steps { (steps : List Repeat)
        → Each (λ s. Each (HasItsLines s) s.streams) (does_all empty steps).sessions }
    ensures scripts { (lines : List (List ℕ))
        → Each (λ s. Each (HasItsLines s) s.streams) (world_of empty lines).sessions }
    ensures turns { (now : ℕ) (items : List Item) (epoch : ℕ) (s : Session)
        → (given_on (session_turn now items epoch s).session ≡ given_on s)
        ⊎ ((n : ℕ)
        × ((session_turn now items epoch s).gives
        ≡ Send (text_at (session_turn now items epoch s).session.board.lines n))
        × (given_on (session_turn now items epoch s).session ≡ change 0 (λ ns. n ∷ ns) (given_on s))) }
    ensures in_order { (s : Session) (t : Stream) → HasItsLines s t
        → (reverse t.given ≡ range_with_len (t.from + 1) (length t.given))
        × (t.from + length t.given ≤ length s.board.lines) }
{}

/// A tick ends with code 73 exactly the sessions that are alive and were without a stream for as long as one may be;
/// each other session is as it was. So in each world that steps make of the empty one, no living session is without a
/// stream for that long.
pub fn a_session_times_out_exactly()
    ensures ends { (w : World) (n ms times : ℕ) (s : Session) → slice_get w.sessions n ≡ Some s → IsGone ms s
        → slice_get (does w (step.Tick ms) times).after.sessions n ≡ Some (ended 73 s) }
    ensures others { (w : World) (n ms times : ℕ) (s : Session) → slice_get w.sessions n ≡ Some s
        → (IsGone ms s → ⊥) → slice_get (does w (step.Tick ms) times).after.sessions n ≡ Some s }
    ensures steps { (steps : List Repeat)
        → Each (λ s. IsGone (does_all empty steps).tick s → ⊥) (does_all empty steps).sessions }
    ensures scripts { (lines : List (List ℕ))
        → Each (λ s. IsGone (world_of empty lines).tick s → ⊥) (world_of empty lines).sessions }
    ensures gone { (now since : ℕ) (s : Session) → s.life ≡ Alive → s.unbound ≡ Some since → since + 30000 ≤ now
        → IsGone now s }
    ensures only_gone { (now : ℕ) (s : Session) → IsGone now s
        → (s.life ≡ Alive) × ((since : ℕ) × (s.unbound ≡ Some since) × (since + 30000 ≤ now)) }
{}

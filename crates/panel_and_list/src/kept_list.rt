// The plain list beside the panel: when it is fed, and with what. Document 01: "fed whole at its step
// that stores the slot, or at its last if it stores none".
ghost use Rattle.std.specs.Prelude.{ℕ, true, List, ◌≡◌};
ghost use Rattle.answers.specs.Answers.{paper_call, has_ended, is_started};
ghost use Rattle.plain_list.specs.PlainList.{change as change_fed};
ghost use Rattle.plain_rows.specs.Rows.{counted};
ghost use Rattle.plain_rows.specs.Fed.{operation_of};
ghost use Rattle.effects.specs.Memory.{stores_slot};
ghost use Rattle.change.specs.Change.{action_masks};
ghost use Rattle.command.specs.Command.{sent_in, frame_refusal};
ghost use Rattle.calls.specs.declared.Call.TheVariants.{StartCommand};
ghost use Rattle.history.specs.Log.{as_change, served_by, served_role, role_of};
ghost use Rattle.history.specs.World.{stores_now, ends_now};
ghost use Rattle.panel_and_list.specs.Kept.{is_writer_step, feeds_after, notes_begun, notes_stepped, NotesAfter, rows_after, Listed};

use crate::Notes;
use crate::answer_kinds::{has_ended, is_refused, is_started, serves_writer};
use answers::Given;
use calls::Call;
use change::action_masks;
use conditions::{both_hold, either_holds};
use effects::memory::WriterAccess;
use plain_rows::{Operation, Row, feed};
use record::Record;
use refusal::Refusal;
use writer::writer_access;

// The call feeds the list. `fed`: the writer's operation has fed it before.
#[tactic(auto, unfolding(crate::specs::Kept::feeds_after))]
pub(crate) fn feeds_now(
    panel: &Record,
    fed: bool,
    answer: Result<Given, Refusal>,
    call: Call,
) -> bool
    ensures { (frame : List ℕ) → result ≡ feeds_after panel.now fed (paper_call answer) (role_of call frame (paper_call answer)) }
{
    let stores = stores_now(panel, answer, call);
    let ends = ends_now(answer, call);
    either_holds(stores, both_hold(ends, !fed))
}

// The call is a step of the writer that stores a slot.
fn stores_now(panel: &Record, answer: Result<Given, Refusal>, call: Call) -> bool
    ensures { (frame : List ℕ) → result ≡ stores_now panel.now (paper_call answer) (role_of call frame (paper_call answer)) }
{
    let access = writer_access(panel, panel.writer.work);
    let stores = both_hold(!is_refused(answer), stores_slot(access));
    both_hold(is_writer_step(call, answer), stores)
}

// The call is the last step of the writer's operation.
fn ends_now(answer: Result<Given, Refusal>, call: Call) -> bool
    ensures { (frame : List ℕ) → result ≡ ends_now (paper_call answer) (role_of call frame (paper_call answer)) }
{
    both_hold(is_writer_step(call, answer), has_ended(answer))
}

fn is_writer_step(call: Call, answer: Result<Given, Refusal>) -> bool
    ensures { result ≡ is_writer_step call (paper_call answer) }
{
    match call {
        Call::StepWriter => true,
        Call::Turn => serves_writer(answer),
        _ => false,
    }
}

fn stores_slot(access: WriterAccess) -> bool
    ensures { result ≡ stores_slot access }
{
    matches!(access, WriterAccess::StoreSlot(_))
}

// The call feeds the list or does not.
#[tactic(auto, unfolding(crate::specs::Kept::rows_after))]
pub(crate) fn feed_list(
    rows: &mut [Row],
    count: &mut usize,
    panel: &Record,
    asked: Option<Operation>,
    feeds: bool,
)
    ensures { Listed (counted rows.old count.old) (counted rows.new count.new) (rows_after panel.now feeds (operation_of asked) (counted rows.old count.old)) }
{
    if feeds {
        let _ = feed(rows, count, panel.m, panel.k, asked);
    }
}

impl Notes {
    // The notes after the call.
    #[tactic(auto, unfolding(crate::specs::Kept::fed_after, history::specs::Log::role_of, history::specs::Log::writing_after))]
    pub(crate) fn after(
        self,
        feeds: bool,
        answer: Result<Given, Refusal>,
        call: Call,
        frame: &[u8],
    ) -> Notes
        ensures { (call ≡ StartCommand → is_started (paper_call answer) ≡ true → frame_refusal frame.now ≡ 0) → NotesAfter self feeds (paper_call answer) (role_of call frame.now (paper_call answer)) result }
    {
        match call {
            Call::StartLookup { .. } => self,
            Call::StartWalk { .. } => self,
            Call::StepReader { .. } => self,
            Call::StartPut { point, value } => {
                self.begun(answer, Some(Operation::Put { point, value }))
            }
            Call::StartChange { point, keep, flip } => {
                self.begun(answer, Some(Operation::Change { point, keep, flip }))
            }
            Call::StartRemoval { point } => self.begun(answer, Some(Operation::Removal { point })),
            Call::StartCommand => self.begun(answer, commanded(frame)),
            Call::StepWriter => self.stepped(feeds, answer),
            Call::Turn => self.turned(feeds, answer),
        }
    }

    // A turn that serves the writer is its step; another leaves the notes.
    fn turned(self, feeds: bool, answer: Result<Given, Refusal>) -> Notes
        ensures { NotesAfter self feeds (paper_call answer) (served_role (served_by (paper_call answer))) result }
    {
        if serves_writer(answer) {
            self.stepped(feeds, answer)
        } else {
            self
        }
    }

    // An operation that has been started is noted; a refused start leaves the notes.
    #[tactic(auto, unfolding(crate::specs::Kept::notes_begun))]
    fn begun(self, answer: Result<Given, Refusal>, asked: Option<Operation>) -> Notes
        ensures { result ≡ notes_begun self (is_started (paper_call answer)) asked }
    {
        if is_started(answer) {
            Notes { asked, ..self }
        } else {
            self
        }
    }

    // A step of the operation feeds the list or does not; of one that has ended nothing is noted.
    #[tactic(auto, unfolding(crate::specs::Kept::notes_stepped))]
    fn stepped(self, feeds: bool, answer: Result<Given, Refusal>) -> Notes
        ensures { result ≡ notes_stepped self feeds (has_ended (paper_call answer)) }
    {
        if has_ended(answer) {
            Notes::default()
        } else {
            Notes {
                fed: either_holds(self.fed, feeds),
                ..self
            }
        }
    }
}

// "a started command as its change": the change of the command that the frame is.
#[tactic(auto, unfolding(history::specs::Log::as_change))]
fn commanded(frame: &[u8]) -> Option<Operation>
    ensures { frame_refusal frame.now ≡ 0 → operation_of result ≡ as_change (sent_in frame.now) }
{
    match frame::read(frame) {
        Ok(read) => Some(change_of(read.fields.point, read.fields.action)),
        Err(_) => None,
    }
}

fn change_of(point: u32, action: u32) -> Operation
    ensures { operation_of (Some result) ≡ change_fed point (action_masks action).keep (action_masks action).flip }
{
    let masks = action_masks(action);
    Operation::Change {
        point,
        keep: masks.keep,
        flip: masks.flip,
    }
}

// Completions for reads and for Translation Requests. The functions take tag, request, Byte Count, Lower
// Address and payload one by one, as the definitions of the same names do. A status is the packet's
// number of three bits, of which every value can come.
#![tactic(auto)]

ghost use Rattle.std.specs.Prelude.{◌≡◌, []};
ghost use Rattle.state.specs.State.{with_tag};
ghost use Rattle.state.specs.Answers.{unrefused, observed, commit};
ghost use Rattle.on_completion.specs.Reads.{on_read_data, on_read_status};
ghost use Rattle.on_completion.specs.Translations.{is_live, on_translation_status, applied_if_live, on_translation_data};
ghost use Rattle.on_completion.specs.Completions.{completed_for, completed};

use packet::{Completion, Outcome, Refusal, Tag};
use state::{Answer, Effect, Function};
use tags::{PendingRead, PendingTranslation, TagState};
use translations::Part;

fn free_tag(f: &mut Function, t: Tag)
    ensures { f.new ≡ with_tag f.old t TagState.Free }
{
    tags::set_tag(&mut f.tags, t, TagState::Free);
}

#[tactic(auto, using(state::proofs::Commits::commits), unfolding(crate::specs::Reads::on_read_data))]
fn on_read_data(
    f: &mut Function,
    t: Tag,
    r: PendingRead,
    count: u16,
    bytes: usize,
) -> Result<Effect, Refusal>
    ensures { observed f.new result [] ≡ commit f.old [] (on_read_data f.old t r count bytes) }
{
    if count != r.due || (r.due as usize) < bytes {
        return Err(Refusal::BadCompletion);
    }
    if bytes == r.due as usize {
        free_tag(f, t);
        return state::answered(Answer::PayloadLast);
    }
    let rest = PendingRead {
        due: r.due - bytes as u16,
        ..r
    };
    tags::set_tag(&mut f.tags, t, TagState::Read(rest));
    state::answered(Answer::PayloadMore)
}

#[tactic(auto, using(state::proofs::Commits::commits), unfolding(crate::specs::Reads::on_read_status))]
fn on_read_status(f: &mut Function, t: Tag, status: u8) -> Result<Effect, Refusal>
    ensures { observed f.new result [] ≡ commit f.old [] (on_read_status f.old t status) }
{
    if status == 0 {
        return Err(Refusal::BadCompletion);
    }
    free_tag(f, t);
    state::answered(Answer::ReadFailed)
}

#[tactic(auto, using(state::proofs::Commits::commits), unfolding(crate::specs::Translations::on_translation_status))]
fn on_translation_status(f: &mut Function, t: Tag, status: u8) -> Result<Effect, Refusal>
    ensures { observed f.new result [] ≡ commit f.old [] (on_translation_status f.old t status) }
{
    if status == 0 {
        return Err(Refusal::BadCompletion);
    }
    free_tag(f, t);
    if status == 4 {
        return state::answered(Answer::Aborted);
    }
    f.enabled = false;
    state::answered(Answer::SwitchedOff)
}

// May data for a request still be cached?
fn is_live(f: &Function, q: PendingTranslation) -> bool
    ensures { result ≡ is_live f.now q }
{
    f.enabled && !q.stale
}

// Takes a packet that fits: the tag gets the state `o`.
#[tactic(auto, using(state::proofs::Commits::commits), unfolding(crate::specs::Translations::applied_if_live))]
fn apply_if_live(
    f: &mut Function,
    t: Tag,
    q: PendingTranslation,
    load: &[u8],
    o: TagState,
    answer: Answer,
) -> Result<Effect, Refusal>
    ensures { observed f.new result [] ≡ commit f.old [] (applied_if_live f.old t q load.now o (unrefused answer)) }
{
    tags::set_tag(&mut f.tags, t, o);
    if !is_live(f, q) {
        return state::answered(Answer::Discarded);
    }
    translations::apply(&mut f.cache, q, load);
    state::answered(answer)
}

#[tactic(auto, unfolding(crate::specs::Translations::on_translation_data))]
fn on_translation_data(
    f: &mut Function,
    t: Tag,
    q: PendingTranslation,
    count: u16,
    lower: u8,
    load: &[u8],
) -> Result<Effect, Refusal>
    ensures { observed f.new result [] ≡ commit f.old [] (on_translation_data f.old t q count lower load.now) }
{
    match translations::classify(q, f.rcb, count, lower, load) {
        Part::Misfit => Err(Refusal::BadCompletion),
        Part::OffBoundary => {
            free_tag(f, t);
            state::answered(Answer::Discarded)
        }
        Part::First => {
            let rest = TagState::Translate(translations::after_first(q, count, load));
            apply_if_live(f, t, q, load, rest, Answer::More)
        }
        Part::Last => apply_if_live(f, t, q, load, TagState::Free, Answer::Filled),
    }
}

// Handles a completion for a Translation Request.
fn complete_translation(
    f: &mut Function,
    c: Completion,
    q: PendingTranslation,
    load: &[u8],
) -> Result<Effect, Refusal>
    ensures { observed f.new result [] ≡ commit f.old [] (completed_for f.old c load.now c.outcome (TagState.Translate q)) }
{
    match c.outcome {
        Outcome::Data(_) => on_translation_data(f, c.tag, q, c.count, c.lower, load),
        Outcome::Status(status) => on_translation_status(f, c.tag, status),
    }
}

// Handles a completion for a read.
fn complete_read(
    f: &mut Function,
    c: Completion,
    r: PendingRead,
    load: &[u8],
) -> Result<Effect, Refusal>
    ensures { observed f.new result [] ≡ commit f.old [] (completed_for f.old c load.now c.outcome (TagState.Read r)) }
{
    match c.outcome {
        Outcome::Data(_) => on_read_data(f, c.tag, r, c.count, load.len()),
        Outcome::Status(status) => on_read_status(f, c.tag, status),
    }
}

// Handles a completion, according to the state of its tag.
#[tactic(auto, unfolding(crate::specs::Completions::completed))]
pub fn complete(f: &mut Function, c: Completion, load: &[u8]) -> Result<Effect, Refusal>
    ensures { observed f.new result [] ≡ commit f.old [] (completed f.old c load.now) }
{
    match tags::tag_state(&f.tags, c.tag) {
        TagState::Free => Err(Refusal::NothingPending),
        TagState::Translate(q) => complete_translation(f, c, q, load),
        TagState::Read(r) => complete_read(f, c, r, load),
    }
}

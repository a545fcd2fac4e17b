//! Items apart from their notes and messages.
ghost use Rattle.std.specs.Prelude.{◌≡◌, List, ◌+◌, ◌<◌, ◌≤◌, [], ◌∷◌, ◌++◌, Some, length, slice_get, vec_len, vec_capacity};
ghost use Rattle.std.specs.Option.{option_copied};
ghost use Rattle.std.specs.List.{slice_range};
ghost use Rattle.acc_message.specs.declared.message.Message.{Message as AMessage};
ghost use Rattle.acc_message.specs.declared.note.Note.{Note as ANote};
ghost use Rattle.acc_message.specs.declared.head.Head.{Head as AHead};
ghost use Rattle.acc_message.specs.declared.item.Item.{Item as AnItem};
ghost use Rattle.acc_message.specs.Items.{sent_in, noted_in};
ghost use Rattle.acc_message.specs.Shown.{with_sent};
ghost use Rattle.acc_message.specs.Growing.{message_in};
ghost use Rattle.acc_message.specs.Joined.{item_of, is_step_of, noted_of, until_of, joined, IsStretch, begin_of};

use crate::bare::Bare;
use crate::entry::{Emitted, Entry};
use crate::item::Item;
use crate::message::{Message, Messages};
use crate::note::{Note, Notes};
use crate::shown::Shown;
use acc_base::Sequence;
use std::alloc::Global;

/// An item apart from its notes and messages, which stand in a list of the notes and in one of the messages of many items. Each
/// item says where in those lists its own end; they begin where those of the item before it end.
#[derive(Clone, Copy, Debug)]
pub(crate) struct Head {
    until: u32,
    noted: u32,
    bare: Bare,
}

const _: () = prove!(size_of::<Head>() == 32);

impl Head {
    // Where its notes end.
    fn noted(&self) -> u32
        ensures { result ≡ noted_of self.now }
    {
        self.noted
    }

    // Where its messages end.
    fn until(&self) -> u32
        ensures { result ≡ until_of self.now }
    {
        self.until
    }

    // Whether its item is a step.
    #[inline(always)]
    fn is_step(&self) -> bool
        ensures { result ≡ is_step_of self.now.bare }
    {
        self.bare.is_step()
    }

    // What its item shows, which made these notes.
    fn shown<'a>(&self, notes: &'a [Note]) -> Shown<'a>
        ensures { (out : List AMessage) → with_sent result out ≡ item_of self.now.bare notes.now out }
    {
        self.bare.shown(notes)
    }
}

// An item apart from its notes and messages, which begin at places in the lists.
#[inline(always)]
fn parted(alloc: Global, item: Item, noted: u32, from: u32) -> (Head, Notes, Messages)
    requires notes { noted + length (noted_in item) ≤ 4294967295 }
    requires messages { from + length (sent_in item) ≤ 4294967295 }
    ensures item { item_of result.0.bare result.1 result.2 ≡ item }
    ensures notes { result.1 ≡ noted_in item }
    ensures messages { result.2 ≡ sent_in item }
    ensures noted { result.0.noted ≡ noted + length (noted_in item) }
    ensures until { result.0.until ≡ from + length (sent_in item) }
{
    match item {
        Item::Step(entry) => {
            let Entry {
                actor,
                lost,
                event,
                emitted,
            } = entry;
            let Emitted { notes, out } = emitted;
            let head = Head {
                until: from + out.len() as u32,
                noted: noted + notes.len() as u32,
                bare: Bare::Step { lost, actor, event },
            };
            (head, notes, out)
        }
        Item::Skipped { step, cause } => {
            let head = Head {
                until: from,
                noted,
                bare: Bare::skipped(step, cause),
            };
            (head, Sequence::new(alloc), Sequence::new(alloc))
        }
        Item::Down { actor } => {
            let head = Head {
                until: from,
                noted,
                bare: Bare::Down { actor },
            };
            (head, Sequence::new(alloc), Sequence::new(alloc))
        }
    }
}

// Appends values for which there is room.
fn append<T: Drop>(list: &mut Vec<T>, more: Sequence<T>)
    requires { vec_len list.old + length more ≤ vec_capacity list.old }
    ensures items { list.new.items ≡ list.old.items ++ more }
    ensures capacity { vec_capacity list.new ≡ vec_capacity list.old }
{
    for value in more.into_vec() {
        list.push_reserved(value);
    }
}

/// Puts an item after the others, where there is room for it.
#[inline(always)]
pub(crate) fn put(
    heads: &mut Vec<Head>,
    notes: &mut Vec<Note>,
    messages: &mut Vec<Message>,
    item: Item,
)
    requires noted { IsStretch noted_of 0 heads.old.items (length notes.old.items) }
    requires stretch { IsStretch until_of 0 heads.old.items (length messages.old.items) }
    requires place { vec_len heads.old < vec_capacity heads.old }
    requires notes_room { vec_len notes.old + length (noted_in item) ≤ vec_capacity notes.old }
    requires room { vec_len messages.old + length (sent_in item) ≤ vec_capacity messages.old }
    requires few_notes { vec_len notes.old + length (noted_in item) ≤ 4294967295 }
    requires few { vec_len messages.old + length (sent_in item) ≤ 4294967295 }
    ensures items { joined 0 0 heads.new.items notes.new.items messages.new.items ≡ joined 0 0 heads.old.items notes.old.items messages.old.items ++ item ∷ [] }
    ensures noted { IsStretch noted_of 0 heads.new.items (length notes.new.items) }
    ensures stretch { IsStretch until_of 0 heads.new.items (length messages.new.items) }
    ensures count { length heads.new.items ≡ length heads.old.items + 1 }
    ensures notes_count { length notes.new.items ≡ length notes.old.items + length (noted_in item) }
    ensures messages_count { length messages.new.items ≡ length messages.old.items + length (sent_in item) }
    ensures capacities { (vec_capacity heads.new ≡ vec_capacity heads.old) × (vec_capacity notes.new ≡ vec_capacity notes.old) × (vec_capacity messages.new ≡ vec_capacity messages.old) }
{
    let alloc = *heads.allocator();
    let (head, noted, out) = parted(alloc, item, notes.len() as u32, messages.len() as u32);
    append(notes, noted);
    append(messages, out);
    heads.push_reserved(head);
}

// Where the notes of the head at a place begin.
fn begin_notes(heads: &[Head], place: usize) -> u32
    requires { place < length heads.now }
    ensures { result ≡ begin_of noted_of 0 heads.now place }
{
    match place.checked_sub(1) {
        Some(before) => heads[before].noted(),
        None => 0,
    }
}

// Where the messages of the head at a place begin.
fn begin(heads: &[Head], place: usize) -> u32
    requires { place < length heads.now }
    ensures { result ≡ begin_of until_of 0 heads.now place }
{
    match place.checked_sub(1) {
        Some(before) => heads[before].until(),
        None => 0,
    }
}

// Where the notes of the head at a place begin and end.
fn range_of_notes(heads: &[Head], notes: &[Note], place: usize) -> (usize, usize)
    requires noted { IsStretch noted_of 0 heads.now (length notes.now) }
    requires place { place < length heads.now }
    ensures ordered { result.0 ≤ result.1 }
    ensures within { result.1 ≤ length notes.now }
    ensures range { (head : AHead) → slice_get heads.now place ≡ Some head → (result.0 ≡ begin_of noted_of 0 heads.now place) × (result.1 ≡ noted_of head) }
{
    let noted = heads[place].noted();
    (begin_notes(heads, place) as usize, noted as usize)
}

// Where the messages of the head at a place begin and end.
fn range(heads: &[Head], messages: &[Message], place: usize) -> (usize, usize)
    requires stretch { IsStretch until_of 0 heads.now (length messages.now) }
    requires place { place < length heads.now }
    ensures ordered { result.0 ≤ result.1 }
    ensures within { result.1 ≤ length messages.now }
    ensures range { (head : AHead) → slice_get heads.now place ≡ Some head → (result.0 ≡ begin_of until_of 0 heads.now place) × (result.1 ≡ until_of head) }
{
    let until = heads[place].until();
    (begin(heads, place) as usize, until as usize)
}

// The notes of the head at a place.
fn noted_at<'a>(heads: &[Head], notes: &'a [Note], place: usize) -> &'a [Note]
    requires noted { IsStretch noted_of 0 heads.now (length notes.now) }
    requires place { place < length heads.now }
    ensures { (head : AHead) → slice_get heads.now place ≡ Some head → result.now ≡ slice_range notes.now (begin_of noted_of 0 heads.now place) (noted_of head) }
{
    let (from, until) = range_of_notes(heads, notes, place);
    &notes[from..until]
}

// The messages of the head at a place.
fn sent_at<'a>(heads: &[Head], messages: &'a [Message], place: usize) -> &'a [Message]
    requires stretch { IsStretch until_of 0 heads.now (length messages.now) }
    requires place { place < length heads.now }
    ensures { (head : AHead) → slice_get heads.now place ≡ Some head → result.now ≡ slice_range messages.now (begin_of until_of 0 heads.now place) (until_of head) }
{
    let (from, until) = range(heads, messages, place);
    &messages[from..until]
}

/// What the item of the head at a place shows.
pub(crate) fn shown_at<'a>(heads: &[Head], notes: &'a [Note], place: usize) -> Shown<'a>
    requires noted { IsStretch noted_of 0 heads.now (length notes.now) }
    requires place { place < length heads.now }
    ensures { (messages : List AMessage) → (out : List AMessage) × (slice_get (joined 0 0 heads.now notes.now messages) place ≡ Some (with_sent result out)) }
{
    heads[place].shown(noted_at(heads, notes, place))
}

/// What the item of the head at a place sent.
pub(crate) fn sent_by_head<'a>(
    heads: &[Head],
    messages: &'a [Message],
    place: usize,
) -> &'a [Message]
    requires stretch { IsStretch until_of 0 heads.now (length messages.now) }
    requires place { place < length heads.now }
    ensures { (notes : List ANote) (item : AnItem) → slice_get (joined 0 0 heads.now notes messages.now) place ≡ Some item → result.now ≡ sent_in item }
{
    if heads[place].is_step() {
        return sent_at(heads, messages, place);
    }
    &[]
}

/// The message with this index among those of the head at a place, if there are so many.
pub(crate) fn message_at<'a>(
    heads: &[Head],
    messages: &'a [Message],
    place: usize,
    index: usize,
) -> Option<&'a Message>
    requires { IsStretch until_of 0 heads.now (length messages.now) }
    ensures { (notes : List ANote) → option_copied result ≡ message_in (slice_get (joined 0 0 heads.now notes messages.now) place) index }
{
    if place >= heads.len() {
        return None;
    }
    sent_by_head(heads, messages, place).get(index)
}

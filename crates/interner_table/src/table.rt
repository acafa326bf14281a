//! The table of texts for one thread.

ghost use Rattle.std.specs.Prelude.{IsTrue, ◌≡◌, ℕ, [], ◌∷◌, ◌++◌, ◌+◌, ◌-◌, ◌^◌, ◌%◌, ◌<◌, ◌≤◌, OnOk, OnErr, IfOk, IfErr, MatchOption, Option, None, Some, slice_get, length, List, ◌↔◌};
ghost use Rattle.text_forms.specs.Faults.{IsInternFault};
ghost use Rattle.text_forms.specs.declared.faults.Fault.TheVariants.{FullCount, Memory};
ghost use Rattle.interner_table.specs.Calls.{Answers, AnswersAll};
ghost use Rattle.std.specs.List.{swap_remove};
ghost use Rattle.text_forms.specs.Layout.{holder_bound, serial_bound, usual_buckets};
ghost use Rattle.text_forms.specs.Map.{Holding, IsHeldTicket, Intern, MapReply, MayReply, empty_map, with_held, with_last};
ghost use Rattle.interner_table.specs.Order.{ComesLast, GoesFrom};
ghost use Rattle.interner_table.specs.Outcomes.{Interned};
ghost use Rattle.interner_table.specs.Table.{Adds, Interns, Gives, AreBothHeld, GivesOnce, HasOneTextEach, IsFixedWord, IsHeld, IsWordOf, as_word};
ghost use Rattle.text_forms.specs.Tables.{bucket_of, form_of_text, fixed_word};
ghost use Rattle.text_forms.specs.Word.{ticket_of};
ghost use Rattle.text_forms.specs.declared.static_sets.TextForm.TheVariants.{Dynamic};

mod call;
mod holding;
mod iter;
mod look_up;
mod memory;
mod name;
mod names;
mod release;
mod room;
mod trusted_texts;
mod word_text;

pub use call::{Call, TableReply};
use holding::{Holding, write_holders};
use indexmap::{IndexMap, IndexSet};
pub use iter::{HeldText, Iter};
use memory::Room;
pub use name::Name;
pub use names::Names;
use std::alloc::Global;
use std::hash::{BuildHasher, RandomState};
use std::marker::{Model, PhantomData};
use text_forms::Fault;
use text_forms::static_sets::{StaticTables, TextForm, form_of_text, static_text};
use text_forms::word::{Buckets, Form, Limits, form_of, static_word, ticket_word};
pub use trusted_texts::TrustedTexts;
pub use word_text::WordText;

/// The interned texts of one thread. Each dynamic text that is held has one ticket and a number of holders.
///
/// `H` makes the hashes by which texts are found. With `RandomState`, which is drawn by `RandomState::new(&rt)?`, no chosen texts cost more than
/// random ones; `TrustedTexts` is faster, and is for texts that no outsider writes. A table promises the same with either.
#[derive(Drop)]
pub struct Table<S: StaticTables, H: BuildHasher = RandomState> {
    limits: Limits,
    buckets: Buckets,
    lasts: Vec<u64>, // a bucket's last serial
    entries: IndexMap<String, Holding, H>,
    // Each at the place of its entry. Whoever chooses the texts doesn't choose their tickets: each serial of a bucket is spent by a call.
    tickets: IndexSet<u64>,
    bytes: u128, // of all texts together
    room: Room,
    alloc: Global,
    statics: PhantomData<S>,
}

impl<S: StaticTables, H: BuildHasher> Model for Table<S, H> {
    ghost use Rattle.interner_table.specs.Kept.{Kept, pairs_of, IsKeptTable};

    ghost Value = { Kept };

    ghost view = { λ a. record { limits = a.limits; lasts = a.lasts.items; pairs = pairs_of a.entries.entries } };

    ghost invariant = { λ a. IsKeptTable S.tables a.buckets a.lasts.items (pairs_of a.entries.entries) a.tickets.keys a.bytes };
}

impl<S: StaticTables, H: BuildHasher + Drop> Table<S, H> {
    ghost use Rattle.interner_table.specs.Kept.{map_of};

    /// An empty table with this hasher, the greatest limits and the usual number of buckets. `Memory` if there is no room for its buckets.
    pub fn new(alloc: Global, hasher: H) -> Result<Self, Fault>
        ensures empty { IfOk result (λ table. map_of table ≡ empty_map usual_buckets) }
        ensures limits { IfOk result (λ table. table.limits ≡ record { holders = holder_bound - 1; serials = serial_bound - 1 }) }
        ensures fault { IfErr result (λ fault. fault ≡ Memory) }
    {
        Table::with_limits(alloc, hasher, Limits::greatest())
    }

    /// An empty table with this hasher, these limits and the usual number of buckets. `Memory` if there is no room for its buckets.
    pub fn with_limits(alloc: Global, hasher: H, limits: Limits) -> Result<Self, Fault>
        ensures empty { IfOk result (λ table. map_of table ≡ empty_map usual_buckets) }
        ensures limits { IfOk result (λ table. table.limits ≡ limits) }
        ensures fault { IfErr result (λ fault. fault ≡ Memory) }
    {
        Table::with_buckets(alloc, hasher, limits, Buckets::usual())
    }

    /// An empty table with this hasher, these limits and this many buckets. `Memory` if there is no room for its buckets.
    pub fn with_buckets(
        alloc: Global,
        hasher: H,
        limits: Limits,
        buckets: Buckets,
    ) -> Result<Self, Fault>
        ensures empty { IfOk result (λ table. map_of table ≡ empty_map (2 ^ buckets)) }
        ensures limits { IfOk result (λ table. table.limits ≡ limits) }
        ensures fault { IfErr result (λ fault. fault ≡ Memory) }
    {
        Ok(Table {
            limits,
            buckets,
            lasts: vec![in alloc; 0; buckets.number()]?,
            entries: IndexMap::with_hasher(alloc, hasher),
            tickets: IndexSet::new(alloc),
            bytes: 0,
            room: Room::none(),
            alloc,
            statics: PhantomData,
        })
    }
}

impl<S: StaticTables, H: BuildHasher> Table<S, H> {
    ghost use Rattle.interner_table.specs.Kept.{Kept, Pair, map_of, tickets_of, IsSoundMap};
    ghost use Rattle.interner_table.specs.Places.{IsPlace, IsFound};

    /// The word of a text. A text of at most 7 bytes has its inline word and a static text its static word, which no limit and no lack of memory
    /// refuses. Any other has a ticket: if the text is held, it gets one more holder; otherwise it gets its bucket's next ticket, and one holder. No
    /// ticket is given twice.
    ///
    /// `FullCount` if the text has as many holders as the limits allow, `TicketsSpent` if the text isn't held and its bucket has no serial left, and
    /// `Memory` if there is no memory for it. A refusal changes nothing.
    pub fn intern(&mut self, text: &str) -> Result<u64, Fault>
        ensures interned { Interned S.tables self.old text.now result self.new }
        // Some of it again, in a form that a caller's proof finds by itself.
        ensures own { IfOk result (λ word. IsWordOf S.tables (map_of self.new) text.now word) }
        ensures same { IfOk result (λ word. (other : ℕ) (also : List ℕ) → IsWordOf S.tables (map_of self.old) also other → (word ≡ other) ↔ (text.now ≡ also)) }
        ensures owned { (other : ℕ) (also : List ℕ) → IsWordOf S.tables (map_of self.old) also other → IsWordOf S.tables (map_of self.new) also other }
        ensures still { (other : ℕ) → IsHeld S.tables (map_of self.old) other → IsHeld S.tables (map_of self.new) other }
        ensures both { IfOk result (λ word. (other : ℕ) → IsHeld S.tables (map_of self.old) other → AreBothHeld S.tables (map_of self.new) word other) }
        ensures fault { IfErr result IsInternFault }
        ensures err { OnErr result (self.new ≡ self.old) }
    {
        let outcome = self.intern_text(text);
        self.is_sound(); // as the last clauses say
        outcome
    }

    /// Makes the calls in order, and returns a reply for each. A refused call changes nothing: its reply is `Refused` with the fault, and the calls
    /// after it are still made. `Memory` if there is no room for the replies; then no call was made.
    pub fn run(&mut self, calls: &[Call]) -> Result<Vec<TableReply>, Fault>
        ensures limits { self.new.limits ≡ self.old.limits }
        ensures replays { IfOk result (λ replies. AnswersAll S.tables self.old.limits (map_of self.old) calls.now replies.items (map_of self.new)) }
        ensures apart { OnOk result (HasOneTextEach S.tables (map_of self.new)) }
        ensures once { OnOk result (GivesOnce (map_of self.old) (map_of self.new)) }
        ensures grow { OnOk result ((bucket : ℕ) → (map_of self.old).last bucket ≤ (map_of self.new).last bucket) }
        ensures fault { IfErr result (λ fault. fault ≡ Memory) }
        ensures err { OnErr result (self.new ≡ self.old) }
    {
        let mut replies = Vec::with_capacity(self.alloc, calls.len())?;
        for call in calls {
            let reply = self.call(call);
            self.is_sound();
            replies.push_reserved(reply);
        }
        self.is_sound();
        Ok(replies)
    }

    // ---- places

    /// Does nothing: its contract says what the invariant makes of every table's map, wherever a proof needs it. A body that opens no field learns
    /// nothing of the invariant, and only a call of `tickets` says that each ticket is there once; hence its calls.
    fn is_sound(&self)
        ensures { IsSoundMap S.tables (map_of self.now) }
    {
        let _ = self.tickets.len(); // its contract says that each ticket is there once
    }

    /// Where the text is. It isn't looked for if it is too short to be dynamic.
    fn find(&self, text: &str) -> Option<usize>
        ensures { MatchOption result ((map_of self.now).held text.now ≡ None) (λ at. (had : Holding) × IsFound self.now text.now at had) }
    {
        self.is_sound();
        if text.len() <= 7 {
            return None;
        }
        let (at, _, _) = self.entries.get_full(text)?;
        Some(at)
    }

    /// Where the ticket is.
    fn place_of(&self, ticket: u64) -> Option<usize>
        ensures { MatchOption result (¬ (IsHeldTicket (map_of self.now) ticket)) (λ at. IsPlace self.now ticket at) }
    {
        let _ = self.entries.len(); // its contract says that each text is there once
        let (at, _) = self.tickets.get_full(&ticket)?;
        Some(at)
    }

    /// The ticket and the holders of the text at a place.
    fn held_at(&self, at: usize) -> (u64, u64)
        requires { at < length self.now.pairs }
        ensures pair { (pair : Pair) → slice_get self.now.pairs at ≡ Some pair → pair.1 ≡ record { ticket = result.0; holders = result.1 } }
        ensures held { 0 < result.1 }
    {
        let held = &self.entries[at];
        (held.ticket(), held.holders())
    }

    /// The bucket of a dynamic text with this hash, and the bucket's last serial.
    fn bucket_and_last(&self, hash: u64) -> (u16, u64)
        ensures bucket { result.0 ≡ hash % (map_of self.now).buckets }
        ensures last { result.1 ≡ (map_of self.now).last result.0 }
    {
        let bucket = self.buckets.bucket_of(hash);
        (bucket, self.lasts[bucket as usize])
    }

    // ---- changes

    /// Sets the number of holders of the text at a place.
    fn set_holders(&mut self, at: usize, holders: u64)
        requires place { at < length self.old.pairs }
        requires held { 0 < holders }
        ensures limits { self.new.limits ≡ self.old.limits }
        ensures map { (text : List ℕ) (had : Holding) → slice_get self.old.pairs at ≡ Some (text, had)
            → map_of self.new ≡ with_held (map_of self.old) text (Some (record { ticket = had.ticket; holders = holders })) }
        ensures order { tickets_of self.new.pairs ≡ tickets_of self.old.pairs }
    {
        write_holders(&mut self.entries, at, holders);
    }

    /// Adds a holder to the text at a place, and returns its ticket. `FullCount` if it has as many holders as the limits allow.
    fn add_holder(&mut self, at: usize) -> Result<u64, Fault>
        requires { at < length self.old.pairs }
        ensures limits { self.new.limits ≡ self.old.limits }
        ensures adds { (text : List ℕ) (had : Holding) → slice_get self.old.pairs at ≡ Some (text, had)
            → Adds self.old.limits (map_of self.old) text had result (map_of self.new) }
        ensures order { tickets_of self.new.pairs ≡ tickets_of self.old.pairs }
        ensures fault { IfErr result (λ fault. fault ≡ FullCount) }
        ensures err { OnErr result (self.new ≡ self.old) }
    {
        let (ticket, holders) = self.held_at(at);
        if holders >= self.limits.holders() {
            return Err(Fault::FullCount);
        }
        self.set_holders(at, holders + 1);
        Ok(ticket)
    }

    /// Takes a holder from the text at a place.
    fn give_at(&mut self, at: usize)
        requires { at < length self.old.pairs }
        ensures limits { self.new.limits ≡ self.old.limits }
        ensures gives { (ticket : ℕ) → IsPlace self.old ticket at → Gives S.tables self.old.limits (map_of self.old) ticket (map_of self.new) }
        ensures order { (ticket : ℕ) → IsPlace self.old ticket at → GoesFrom self.old ticket self.new }
    {
        let (_, holders) = self.held_at(at);
        if holders == 1 {
            self.take_out(at);
        } else {
            self.set_holders(at, holders - 1);
        }
    }

    /// Adds a text that isn't held, with its bucket's next ticket.
    fn add(&mut self, text: &str, bucket: u16, serial: u64) -> Result<u64, Fault>
        requires dynamic { fixed_word (form_of_text S.tables text.now) ≡ None }
        requires bucket { bucket ≡ bucket_of S.tables (map_of self.old).buckets text.now }
        requires serial { serial ≡ (map_of self.old).last bucket + 1 }
        requires range { serial < serial_bound }
        requires absent { (map_of self.old).held text.now ≡ None }
        ensures limits { self.new.limits ≡ self.old.limits }
        ensures word { IfOk result (λ word. word ≡ ticket_of serial bucket) }
        ensures ok { OnOk result (map_of self.new ≡ with_last (with_held (map_of self.old) text.now (Some (record { ticket = ticket_of serial bucket; holders = 1 }))) bucket serial) }
        ensures order { IfOk result (λ word. tickets_of self.new.pairs ≡ tickets_of self.old.pairs ++ word ∷ []) }
        ensures err { OnErr result (self.new ≡ self.old) }
        ensures fault { IfErr result (λ fault. fault ≡ Memory) }
    {
        self.entries.reserve(1)?;
        self.tickets.reserve(1)?;
        let _ = self.entries.len(); // its contract says that this is below 2^63
        let key = String::from_str(self.alloc, text)?;
        let ticket = ticket_word(serial, bucket);
        let Ok(_) = self.entries.insert(key, Holding::new(ticket)) else {
            unreachable!()
        };
        let Ok(_) = self.tickets.insert(ticket) else {
            unreachable!()
        };
        self.bytes += text.len() as u128;
        self.lasts[bucket as usize] = serial;
        Ok(ticket)
    }

    /// Takes out the text at a place. The last one takes its place, and so does its ticket.
    fn take_out(&mut self, at: usize)
        requires { at < length self.old.pairs }
        ensures limits { self.new.limits ≡ self.old.limits }
        ensures map { (text : List ℕ) (had : Holding) → slice_get self.old.pairs at ≡ Some (text, had) → map_of self.new ≡ with_held (map_of self.old) text None }
        ensures order { (ticket : ℕ) → tickets_of self.new.pairs ≡ swap_remove (tickets_of self.old.pairs) at ticket }
    {
        self.room
            .note(self.entries.capacity(), self.tickets.capacity());
        let Some((text, _)) = self.entries.swap_remove_index(at) else {
            unreachable!()
        };
        let Some(_) = self.tickets.swap_remove_index(at) else {
            unreachable!()
        };
        self.bytes -= text.len() as u128;
    }

    /// Interns a text.
    fn intern_text(&mut self, text: &str) -> Result<u64, Fault>
        ensures sound { IsSoundMap S.tables (map_of self.old) }
        ensures limits { self.new.limits ≡ self.old.limits }
        ensures interns { Interns S.tables self.old.limits (map_of self.old) text.now result (map_of self.new) }
        ensures order { IfOk result (λ word. ComesLast self.old word self.new) }
        ensures fault { IfErr result IsInternFault }
        ensures err { OnErr result (self.new ≡ self.old) }
    {
        self.is_sound(); // what is held is dynamic
        if let Some(at) = self.find(text) {
            return self.add_holder(at);
        }
        match form_of_text::<S>(text) {
            TextForm::Inline(inline) => Ok(inline.word()),
            TextForm::Static(index) => Ok(static_word(index)),
            TextForm::Dynamic(hash) => self.intern_new(text, hash),
        }
    }

    /// Interns a dynamic text with this hash, which isn't held.
    fn intern_new(&mut self, text: &str, hash: u64) -> Result<u64, Fault>
        requires dynamic { form_of_text S.tables text.now ≡ Dynamic hash }
        requires absent { (map_of self.old).held text.now ≡ None }
        ensures limits { self.new.limits ≡ self.old.limits }
        ensures replies { (reply : MapReply) × MayReply S.tables self.old.limits (map_of self.old) (Intern text.now) reply (map_of self.new) × (result ≡ as_word reply) }
        ensures order { IfOk result (λ word. ComesLast self.old word self.new) }
        ensures fault { IfErr result IsInternFault }
        ensures err { OnErr result (self.new ≡ self.old) }
    {
        let (bucket, last) = self.bucket_and_last(hash);
        if last >= self.limits.serials() {
            return Err(Fault::TicketsSpent);
        }
        self.add(text, bucket, last + 1)
    }

    /// Makes a call.
    fn call(&mut self, call: &Call) -> TableReply
        ensures limits { self.new.limits ≡ self.old.limits }
        ensures answers { Answers S.tables self.old.limits (map_of self.old) call.now result (map_of self.new) }
    {
        match call {
            Call::Intern(text) => TableReply::of(self.intern(text.as_str())),
            Call::Clone(word) => match self.clone_held(*word) {
                Ok(Some(clone)) => TableReply::Word(clone),
                Ok(None) => TableReply::NotHeld,
                Err(fault) => TableReply::Refused(fault),
            },
            Call::Give(word) => {
                if self.release(*word) {
                    TableReply::Given
                } else {
                    TableReply::NotHeld
                }
            }
        }
    }
}

/// Whether it is the word of an inline or of a static text.
fn is_fixed<S: StaticTables>(word: u64) -> bool
    ensures { IsTrue result ↔ IsFixedWord S.tables word }
{
    match form_of(word) {
        Some(Form::Inline(_)) => true,
        Some(Form::Static(index)) => static_text::<S>(index).is_some(),
        Some(Form::Dynamic { .. }) => false,
        None => false,
    }
}

//! Passes, with which workers make their calls, and the recording of these calls.
ghost use Rattle.std.specs.Prelude.{◌≡◌, ◌≤◌, ◌<◌, ◌+◌, ◌⊎◌, true, [], ◌∷◌, ◌++◌, ◌^◌, All, max, IfOk, IfErr, Err, Some, length, map, option_map, vec_len, vec_capacity};
ghost use Rattle.std.specs.Arc.{arc_value};
ghost use mathlib.Core.List.{IsPrefix};
ghost use Rattle.hm_store_published.specs.Publications.{IsLawful, IsPublishedIn, entries_of, interface_in};
ghost use Rattle.hm_store_published.specs.declared.published.LookFault.TheVariants.{NoEntry};
ghost use Rattle.hm_store.specs.Records.{AddsAt, knows, rises, wrote, wrote_in};
ghost use Rattle.hm_store.specs.declared.record.Act.TheVariants.{Look};
ghost use Rattle.hm_store_journal.specs.Entries.{writer_of};
ghost use Rattle.hm_store_shared.specs.Knowing.{Begins, act_by};

use hm_store::{Act, Call, Entry, Record, noted};
use hm_store_journal::{Journal, Known};
use hm_store_published::{Found, Front, LookFault, Naming, Reader};
use hm_types::Interface;
use std::alloc::{AllocError, Global};
use std::sync::Arc;
use std::sync::ledger::{Book, Ledger, Share};

/// A worker's access to the shared store: its record so far, and the number of calls that it may still make.
#[derive(Drop)]
pub struct Pass<L: Ledger + Naming> {
    record: Record,
    room: usize,
    known: usize,
    share: Share<L>,
    reader: Reader<L>,
    token: Known<L>,
    ghost reserved: { vec_len record.calls + room ≤ vec_capacity record.calls },
    ghost ordered: { rises 0 record.calls.items ≡ true },
    ghost knowing: { known ≡ knows 0 record.calls.items },
    ghost counted: { share.amount ≡ wrote_in record.calls.items },
    ghost backed: { 0 < share.parts },
    ghost numbered: { token.worker ≡ record.worker },
    ghost bounded: { known + room < 2 ^ 63 },
    ghost small: { room < 2 ^ 62 },
}

impl<L: Ledger + Naming> Pass<L> {
    ghost use Rattle.hm_store_shared.specs.Passes.{calls_of, known_of, room_of, seen_of, share_of, worker_of};

    /// Returns a pass with an empty record.
    pub(crate) fn new(
        alloc: Global,
        room: usize,
        token: Known<L>,
        share: Share<L>,
        reader: Reader<L>,
    ) -> Result<Pass<L>, AllocError>
        requires share { (share.amount ≡ 0) × (0 < share.parts) }
        requires room { room < 2 ^ 62 }
        ensures worker { IfOk result (λ p. worker_of p ≡ token.worker) }
        ensures known { IfOk result (λ p. known_of p ≡ token.entries) }
        ensures room { IfOk result (λ p. room_of p ≡ room) }
        ensures empty { IfOk result (λ p. calls_of p ≡ []) }
        ensures parts { IfOk result (λ p. (share_of p).parts ≡ share.parts) }
        ensures seen { IfOk result (λ p. seen_of p ≡ reader) }
    {
        let record = Record::new(alloc, token.worker(), room)?;
        Ok(Pass {
            record,
            room,
            known: 0,
            share,
            reader,
            token,
        })
    }

    // Why: docs/DECISIONS.md, "Places of calls".
    /// Adds an entry of the worker to the journal, and records the call that wrote it.
    #[tactic(auto, using(crate::proofs::Calls::rises_more, crate::proofs::Calls::knows_more, crate::proofs::Calls::wrote_more, crate::proofs::Calls::wrote_by))]
    pub(crate) fn wrote(
        &mut self,
        book: &mut Book<L>,
        journal: &mut Journal<L>,
        entries: usize,
        entry: Entry,
    )
        requires room { 0 < room_of self.old }
        requires own { writer_of entry ≡ worker_of self.old }
        requires place { entries + room_of self.old < 2 ^ 63 }
        ensures total { book.new.total ≡ book.old.total + 1 }
        ensures added { journal.new.entries ≡ journal.old.entries ++ entry ∷ [] }
        ensures known { known_of self.new ≡ journal.old.entries ++ entry ∷ [] }
        ensures begins { Begins (worker_of self.old) (known_of self.old) journal.old.entries }
        ensures calls { AddsAt entries (calls_of self.old) (act_by entry) (calls_of self.new) }
        ensures worker { worker_of self.new ≡ worker_of self.old }
        ensures room { room_of self.new + 1 ≡ room_of self.old }
        ensures parts { (share_of self.new).parts ≡ (share_of self.old).parts }
        ensures seen { seen_of self.new ≡ seen_of self.old }
    {
        let at = entries.max(self.known);
        let act = act_by(entry);
        journal.add(&mut self.token, entry);
        book.add(&mut self.share, 1);
        self.record.calls.push_reserved(Call { at, act });
        self.known = at + 1;
        self.room -= 1;
    }

    /// Records a call that wrote no entry.
    #[tactic(auto, using(crate::proofs::Calls::rises_more, crate::proofs::Calls::knows_more, crate::proofs::Calls::wrote_more))]
    pub(crate) fn read(&mut self, entries: usize, act: Act)
        requires room { 0 < room_of self.old }
        requires writes { wrote act ≡ 0 }
        requires place { entries + room_of self.old < 2 ^ 63 }
        ensures calls { AddsAt entries (calls_of self.old) act (calls_of self.new) }
        ensures worker { worker_of self.new ≡ worker_of self.old }
        ensures room { room_of self.new + 1 ≡ room_of self.old }
        ensures parts { (share_of self.new).parts ≡ (share_of self.old).parts }
        ensures seen { seen_of self.new ≡ seen_of self.old }
        ensures known { known_of self.new ≡ known_of self.old }
    {
        let at = entries.max(self.known);
        self.record.calls.push_reserved(Call { at, act });
        self.known = at;
        self.room -= 1;
    }

    // Why: docs/DECISIONS.md, "The longer list".
    /// Adds these publications to those that the pass has seen. Records nothing.
    pub(crate) fn learn(&mut self, front: &Front<L>)
        ensures kept { IsPrefix (seen_of self.old) (seen_of self.new) }
        ensures told { IsPrefix front.now (seen_of self.new) }
        ensures lawful { IsLawful L.modules L.plan (seen_of self.new) }
        ensures exact { (seen_of self.new ≡ seen_of self.old) ⊎ (seen_of self.new ≡ front.now) }
        ensures record { (worker_of self.new ≡ worker_of self.old) × (calls_of self.new ≡ calls_of self.old) × (room_of self.new ≡ room_of self.old)
            × (share_of self.new ≡ share_of self.old) }
        ensures known { known_of self.new ≡ known_of self.old }
    {
        self.reader.learn(front);
    }

    /// Shows the pass all entries of the journal. Records nothing.
    pub(crate) fn meet(&mut self, journal: &mut Journal<L>)
        ensures same { journal.new ≡ journal.old }
        ensures known { known_of self.new ≡ journal.old.entries }
        ensures begins { Begins (worker_of self.old) (known_of self.old) journal.old.entries }
        ensures calls { calls_of self.new ≡ calls_of self.old }
        ensures worker { worker_of self.new ≡ worker_of self.old }
        ensures room { room_of self.new ≡ room_of self.old }
        ensures share { share_of self.new ≡ share_of self.old }
        ensures seen { seen_of self.new ≡ seen_of self.old }
    {
        journal.meet(&mut self.token);
    }

    /// Shows that the publications that the pass has seen are a prefix of these, or the other way round.
    pub(crate) fn beside(&self, front: &Front<L>)
        ensures { IsPrefix (seen_of self.now) front.now ⊎ IsPrefix front.now (seen_of self.now) }
    {
        self.reader.beside(front);
    }

    // Why: docs/DECISIONS.md, "Methods of the pass".
    /// Looks up the interface of a module among the published ones: all that the pass has seen, and perhaps more. Returns `None` if the module
    /// isn't published there.
    ///
    /// Records the call with what it found. Takes no lock and no handle of the runtime, so it never waits.
    ///
    /// # Errors
    ///
    /// - `NoEntry` if the reader isn't admitted, or reads a copy older than what the pass has seen. A build meets neither.
    /// - `Memory` if an `Arc` couldn't be copied.
    pub fn look(&mut self, number: usize) -> Result<Option<Arc<Interface>>, LookFault>
        requires { 0 < room_of self.old }
        ensures list { IsPrefix (seen_of self.old) (seen_of self.new) }
        ensures known { known_of self.new ≡ known_of self.old }
        ensures lawful { IsLawful L.modules L.plan (seen_of self.new) }
        ensures reply { IfOk result (λ r. option_map arc_value r ≡ interface_in (seen_of self.new) number) }
        ensures ok { IfOk result (λ r. (o : _) × (option_map arc_value o ≡ option_map arc_value r)
            × AddsAt (entries_of (seen_of self.new)) (calls_of self.old) (Look number o) (calls_of self.new)) }
        ensures worker { IfOk result (λ _. worker_of self.new ≡ worker_of self.old) }
        ensures room { IfOk result (λ _. room_of self.new + 1 ≡ room_of self.old) }
        ensures parts { IfOk result (λ _. (share_of self.new).parts ≡ (share_of self.old).parts) }
        ensures err { IfErr result (λ _. (worker_of self.new ≡ worker_of self.old) × (calls_of self.new ≡ calls_of self.old)
            × (room_of self.new ≡ room_of self.old) × (share_of self.new ≡ share_of self.old)) }
        ensures no_entry { result ≡ Err NoEntry → seen_of self.new ≡ seen_of self.old }
    {
        let Found { interface, entries } = match self.reader.look(number) {
            Ok(found) => found,
            Err(fault) => return Err(fault),
        };
        let noted = match noted(&interface) {
            Ok(noted) => noted,
            Err(AllocError) => return Err(LookFault::Memory),
        };
        self.read(entries, Act::Look(number, noted));
        Ok(interface)
    }

    /// Looks up the interface of a module whose publication the pass has seen, so it always finds one. Never waits. Returns the errors of `look`.
    #[tactic(auto, using(crate::proofs::Listing::found_if_published, crate::proofs::Listing::same_if_published))]
    pub fn look_at_seen(&mut self, number: usize) -> Result<Arc<Interface>, LookFault>
        requires room { 0 < room_of self.old }
        requires published { IsPublishedIn (seen_of self.old) number }
        ensures list { IsPrefix (seen_of self.old) (seen_of self.new) }
        ensures known { known_of self.new ≡ known_of self.old }
        ensures lawful { IsLawful L.modules L.plan (seen_of self.new) }
        ensures reply { IfOk result (λ i. interface_in (seen_of self.old) number ≡ Some (arc_value i)) }
        ensures worker { worker_of self.new ≡ worker_of self.old }
        ensures room { IfOk result (λ _. room_of self.new + 1 ≡ room_of self.old) }
        ensures kept { IfErr result (λ _. room_of self.new ≡ room_of self.old) }
    {
        match self.look(number) {
            Ok(Some(interface)) => Ok(interface),
            Ok(None) => unreachable!(),
            Err(fault) => Err(fault),
        }
    }

    /// Looks up the interfaces of these modules, in order. The pass has seen the publication of each, so it always finds them. Never waits.
    /// Returns the errors of `look`; `Memory` also if the list can't grow.
    pub fn look_at_all(
        &mut self,
        alloc: Global,
        numbers: &[usize],
    ) -> Result<Vec<Arc<Interface>>, LookFault>
        requires room { length numbers.now ≤ room_of self.old }
        requires published { All (IsPublishedIn (seen_of self.old)) numbers.now }
        ensures list { IsPrefix (seen_of self.old) (seen_of self.new) }
        ensures known { known_of self.new ≡ known_of self.old }
        ensures reply { IfOk result (λ v. map (λ i. Some (arc_value i)) v.items ≡ map (interface_in (seen_of self.old)) numbers.now) }
        ensures worker { worker_of self.new ≡ worker_of self.old }
        ensures room { IfOk result (λ _. room_of self.new + length numbers.now ≡ room_of self.old) }
        ensures left { room_of self.old ≤ room_of self.new + length numbers.now }
    {
        let mut interfaces = Vec::new(alloc);
        for number in numbers {
            let interface = self.look_at_seen(*number)?;
            match interfaces.push(interface) {
                Ok(()) => {}
                Err(_) => return Err(LookFault::Memory),
            }
        }
        Ok(interfaces)
    }

    /// Returns the worker's number.
    pub fn worker(&self) -> usize
        ensures { result ≡ worker_of self.now }
    {
        self.record.worker
    }

    /// Returns the number of calls that can still be made with this pass.
    pub fn room(&self) -> usize
        ensures { result ≡ room_of self.now }
    {
        self.room
    }

    /// Returns the record, and the ledger's share that counts the journal entries of its calls.
    pub fn into_record(self) -> (Record, Share<L>)
        ensures worker { result.0.worker ≡ worker_of self }
        ensures calls { result.0.calls.items ≡ calls_of self }
        ensures ordered { rises 0 result.0.calls.items ≡ true }
        ensures counted { result.1.amount ≡ wrote_in result.0.calls.items }
        ensures parts { result.1.parts ≡ (share_of self).parts }
        ensures backed { 0 < result.1.parts }
    {
        let Pass {
            record,
            room: _,
            known: _,
            share,
            reader: _reader,
            token: _token,
        } = self;
        (record, share)
    }
}

/// Returns the recorded call that writes this entry.
fn act_by(entry: Entry) -> Act
    ensures { result ≡ act_by entry }
{
    match entry {
        Entry::Claim { worker: _, module } => Act::Job(module),
        Entry::Publish { worker: _, module } => Act::Publish(module),
        Entry::Fail { worker: _, module } => Act::Fail(module),
        Entry::Stop { worker: _ } => Act::Stop(true),
    }
}

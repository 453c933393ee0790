ghost use Rattle.std.specs.Prelude.{◌≡◌, ◌≢◌, ◌<◌, ◌≤◌, ◌∷◌, [], Err, IsTrue, IfOk, IfErr, OnOk, OnErr, Some, length, true, false};
ghost use Rattle.hd_dbd.specs.Facts.{stored_sizes};
ghost use Rattle.hd_dbd.specs.Hierarchy.{longest_path};
ghost use Rattle.hd_dbd.specs.ProgramRules.{type_names};
ghost use Rattle.hd_dbd.specs.Types.{View};
ghost use Rattle.hd_volume.specs.Calls.{IsCall, IsRead};
ghost use Rattle.hd_stores.specs.Stores.{IsCommit, FailsCommit, CountsDevice, StaysSound};
ghost use Rattle.hd_calls.specs.Functions.{function_of};
ghost use Rattle.hd_calls.specs.Runs.{view_of};
ghost use Rattle.hd_calls.specs.Steps.{State, position_at};
ghost use Rattle.hd_update.specs.States.{Represents, kept_of};
ghost use Rattle.hd_session.specs.Opening.{session_at_start, IsOpenedOver, IsOpenFaultOf, IsOpenRead, was_broken, is_broken_by, OnlyDeviceOrBroken};
ghost use Rattle.hd_session.specs.Giving.{IsEmpty};
ghost use Rattle.hd_session.specs.Sessions.{IsUndoneUnlessDevice};
ghost use Rattle.hd_session.specs.Logged.{IsCallLogged};
ghost use Rattle.hd_session.specs.Turns.{MayLackMemory};
ghost use Rattle.hd_session.specs.Replies.{reply_of};
ghost use Rattle.hd_session.specs.Foretelling.{can_be_foretold, StandsOver, HasOutlook, IsNextForetold};

use crate::buffer::IoArea;
use crate::call_and_answer::{Answer, Call};
use crate::calls::call_step;
use crate::last_given::LastGiven;
use crate::next_twin::Readable;
use crate::opening::{OpenFault, start_positions, test_volume};
use crate::outlook::{Outlook, can_be_foretold, foretell_call};
use hd_calls::Function;
use hd_dbd::{Dbd, Psb, Refused};
use hd_position::Position;
use hd_stores::{BlockStore, CommitStore};
use hd_volume::{NO_SPACING, Volume};
use std::alloc::Global;
use std::marker::Model;

/// A session of the PCBs of a program over a volume. What its calls change stands in the store once the session is flushed or closed.
///
/// After an access of the store has failed it is broken: it answers `Broken` to all but the giving back of the store.
#[derive(Drop)]
pub struct Session<'a, S: BlockStore> {
    volume: Volume<S>,
    dbd: &'a Dbd,
    psb: &'a Psb,
    positions: Vec<Position>,
    last_given: LastGiven,
    readable: Readable,
    broken: bool,
    alloc: Global,
}

impl<'a, S: BlockStore> Model for Session<'a, S> {
    ghost use Rattle.hd_session.specs.LastGiven.{AreKeysOf};
    ghost use Rattle.hd_session.specs.Onward.{IsReadableOf};
    ghost use Rattle.hd_session.specs.Opening.{SessionState, IsSession};

    ghost Value = { SessionState };

    ghost view = { λ s. record { database = s.dbd.now; pcbs = s.psb.now.pcbs; volume = s.volume; kept = s.positions.items; broken = s.broken } };

    ghost invariant = { λ s. IsSession s.psb.now.made_for (record { database = s.dbd.now; pcbs = s.psb.now.pcbs; volume = s.volume; kept = s.positions.items; broken = s.broken }) × AreKeysOf s.dbd.now s.volume s.last_given × IsReadableOf s.dbd.now.types s.psb.now.pcbs s.readable };
}

impl<'a, S: BlockStore> Session<'a, S> {
    /// A session in which each PCB is before all rows, over a volume that passes a check, and that is empty where a PCB loads. A fault
    /// gives the volume back. In a session it keeps nothing free as it grows: only loads do.
    pub fn open(
        alloc: Global,
        mut volume: Volume<S>,
        dbd: &'a Dbd,
        psb: &'a Psb,
    ) -> Result<Session<'a, S>, (Volume<S>, OpenFault)>
        requires size { (volume.size ≡ dbd.now.block_size) × (volume.sizes ≡ stored_sizes dbd.now.types) }
        requires matches { psb.now.made_for ≡ type_names dbd.now.types }
        ensures read { IsOpenRead volume result }
        ensures start { IfOk result (λ s. s ≡ session_at_start dbd.now psb.now.pcbs s.volume) }
        ensures stands { IfOk result (λ s. IsTrue volume.is_sound → IsOpenedOver dbd.now psb.now.pcbs volume s) }
        ensures fault { IfErr result (λ e. IsTrue volume.is_sound → IsOpenFaultOf dbd.now psb.now.pcbs volume e.1) }
    {
        let pcbs = psb.pcbs();
        if let Err(fault) = test_volume(alloc, &mut volume, dbd, pcbs) {
            return Err((volume, fault));
        }
        match start_positions(alloc, pcbs) {
            Ok(positions) => {
                volume.set_spacing(NO_SPACING);
                Ok(Session {
                    volume,
                    dbd,
                    psb,
                    positions,
                    last_given: LastGiven::new(alloc),
                    readable: Readable { pcb: 0, code: None },
                    broken: false,
                    alloc,
                })
            }
            Err(_) => Err((volume, OpenFault::Memory)),
        }
    }

    /// The database of the session.
    pub fn dbd(&self) -> &'a Dbd
        ensures { result.now ≡ self.now.database }
    {
        self.dbd
    }

    /// One call of the PCB of a number, counted from 1, with key and area in `io`, which is one of the session's database; after a refusal
    /// it is empty.
    ///
    /// `Area`, `Full` and `Memory` change nothing: the I/O area's bytes have not the length that the call asks, the volume has no room for
    /// the rows, or no memory was found. `Device` says that an access failed in this call; from then on every call is `Broken`, whatever it
    /// asks. With four segment search arguments at most, GU, GN, GNP, their hold forms and DLET take no memory, and neither does a REPL that
    /// makes no row longer over a store that gives back what was written.
    pub fn call(&mut self, pcb: u8, call: &Call, io: &mut IoArea) -> Result<Answer, Refused>
        requires pcb { (0 < pcb) × (pcb ≤ length self.old.pcbs) }
        requires room { longest_path self.old.database.types ≤ io.old.room }
        ensures logged { IsCallLogged self.old pcb call.now result io.new self.new }
        ensures undone { IfErr result (λ e. IsUndoneUnlessDevice self.old.volume self.old.kept e self.new.volume self.new.kept) }
        ensures same { self.new ≡ record self.old { volume = self.new.volume; kept = self.new.kept; broken = is_broken_by result } }
        ensures broken { self.old.broken ≡ was_broken result }
        ensures untouched { self.old.broken ≡ true → self.new ≡ self.old }
        ensures call { IsCall self.old.volume result self.new.volume }
        ensures memory { result ≡ Err Refused.Memory → MayLackMemory self.old pcb call.now }
        ensures never { function_of call.now.function ≢ Some Function.Insert → function_of call.now.function ≢ Some Function.Replace → length call.now.ssas ≤ 4 → IfErr result (λ e. e ≢ Refused.Memory) }
        ensures empty { IfErr result (λ _. IsEmpty io.new) }
        ensures same_room { io.new.room ≡ io.old.room }
    {
        io.clear();
        if self.broken {
            return Err(Refused::Broken);
        }
        let number = pcb as usize;
        let pcbs = self.psb.pcbs();
        let mut readable = self.readable.of(pcb);
        let answered = call_step(
            self.alloc,
            &mut self.volume,
            self.dbd,
            &pcbs[number - 1],
            &mut self.positions,
            number,
            call,
            &mut readable,
            &mut self.last_given,
            io,
        );
        self.readable = Readable {
            pcb,
            code: readable,
        };
        if let Err(refused) = &answered {
            self.last_given.forget();
            self.broken = *refused == Refused::Device;
        }
        answered
    }

    /// Where the PCB of a number, counted from 1, is, for what its calls would answer from there.
    pub fn outlook(&self, pcb: u8) -> Outlook
        requires pcb { (0 < pcb) × (pcb ≤ length self.now.pcbs) }
        ensures is { result ≡ kept_of self.now.kept pcb ∷ [] }
        ensures stands { (st : State) → Represents self.now.database self.now.volume self.now.kept st → StandsOver self.now.database self.now.volume result st.rows (position_at st pcb) }
        ensures outlook { self.now.broken ≡ false → HasOutlook self.now.database self.now.volume result }
    {
        Outlook {
            positions: [self.positions[pcb as usize - 1].copy()],
        }
    }

    /// Whether a call of the PCB of a number, counted from 1, can be foretold: it is a get with four segment search arguments at most, and the PCB does not load.
    pub fn can_foretell(&self, pcb: u8, call: &Call) -> bool
        requires pcb { (0 < pcb) × (pcb ≤ length self.now.pcbs) }
        ensures { (view : View) → view_of self.now.pcbs pcb ≡ Some view → result ≡ can_be_foretold view call.now }
    {
        let number = pcb as usize;
        let views = self.psb.pcbs();
        can_be_foretold(&views[number - 1], call)
    }

    /// What a call of the PCB of a number that can be foretold would answer from an outlook, which goes on to where the PCB would be then. Nothing of the session
    /// changes, unless an access fails.
    pub fn foretell(
        &mut self,
        pcb: u8,
        call: &Call,
        outlook: &mut Outlook,
        io: &mut IoArea,
    ) -> Result<Answer, Refused>
        requires pcb { (0 < pcb) × (pcb ≤ length self.old.pcbs) }
        requires can { (view : View) → view_of self.old.pcbs pcb ≡ Some view → can_be_foretold view call.now ≡ true }
        requires there { self.old.broken ≡ false → HasOutlook self.old.database self.old.volume outlook.old }
        requires room { longest_path self.old.database.types ≤ io.old.room }
        ensures foretold { IfOk result (λ a. (view : View) → view_of self.old.pcbs pcb ≡ Some view → IsNextForetold self.old.database view call.now self.old.volume outlook.old (reply_of a io.new) self.new.volume outlook.new) }
        ensures there { IfOk result (λ _. HasOutlook self.old.database self.new.volume outlook.new) }
        ensures read { IsRead self.old.volume result self.new.volume }
        ensures same { self.new ≡ record self.old { volume = self.new.volume; broken = is_broken_by result } }
        ensures broken { self.old.broken ≡ was_broken result }
        ensures untouched { self.old.broken ≡ true → self.new ≡ self.old }
        ensures refusal { OnlyDeviceOrBroken result }
        ensures empty { IfErr result (λ _. IsEmpty io.new) }
        ensures same_room { io.new.room ≡ io.old.room }
    {
        io.clear();
        if self.broken {
            return Err(Refused::Broken);
        }
        let number = pcb as usize;
        let views = self.psb.pcbs();
        let mut readable = self.readable.of(pcb);
        let told = foretell_call(
            self.alloc,
            &mut self.volume,
            self.dbd,
            &views[number - 1],
            outlook,
            call,
            &mut readable,
            &mut self.last_given,
            io,
        );
        self.readable = Readable {
            pcb,
            code: readable,
        };
        if told.is_err() {
            self.last_given.forget();
            self.broken = true;
        }
        told
    }

    /// Writes to the store what stands only in memory.
    pub fn flush(&mut self) -> Result<(), Refused>
        ensures flushed { OnOk result (IsTrue self.old.volume.is_sound → (self.new.volume.image ≡ self.old.volume.image) × (self.new.volume.stored ≡ self.old.volume.image)) }
        ensures same { self.new ≡ record self.old { volume = self.new.volume; broken = is_broken_by result } }
        ensures broken { self.old.broken ≡ was_broken result }
        ensures untouched { self.old.broken ≡ true → self.new ≡ self.old }
        ensures refusal { OnlyDeviceOrBroken result }
        ensures counts { CountsDevice result self.old.volume.failures self.new.volume.failures }
        ensures sound { StaysSound result self.old.volume.is_sound self.new.volume.is_sound }
        ensures committed { self.new.volume.committed ≡ self.old.volume.committed }
        ensures sizes { (self.new.volume.size ≡ self.old.volume.size) × (self.new.volume.sizes ≡ self.old.volume.sizes) }
    {
        if self.broken {
            return Err(Refused::Broken);
        }
        match self.volume.flush() {
            Ok(()) => Ok(()),
            Err(refused) => {
                self.last_given.forget();
                self.broken = true;
                Err(refused)
            }
        }
    }

    /// Flushes the session, and gives the store back, whatever the answer is.
    pub fn close(mut self) -> (S, Result<(), Refused>)
        ensures closed { OnOk result.1 (IsTrue self.entry.volume.is_sound → S.contents result.0 ≡ self.entry.volume.image) }
        ensures broken { self.entry.broken ≡ was_broken result.1 }
        ensures untouched { self.entry.broken ≡ true → S.contents result.0 ≡ self.entry.volume.stored }
        ensures refusal { OnlyDeviceOrBroken result.1 }
        ensures counts { CountsDevice result.1 self.entry.volume.failures (S.failures result.0) }
        ensures sound { StaysSound result.1 self.entry.volume.is_sound (S.is_sound result.0) }
        ensures committed { S.committed result.0 ≡ self.entry.volume.committed }
        ensures size { S.size result.0 ≡ self.entry.volume.size }
    {
        let flushed = self.flush();
        (self.volume.into_store(), flushed)
    }
}

impl<'a, S: CommitStore> Session<'a, S> {
    /// Makes what the calls so far have changed last: from `Ok` on a crash leaves it, whenever it comes. Positions, parentage and what is held stay.
    ///
    /// After `Device` a crash leaves what it would have left before, or these rows; the next opening tells which.
    pub fn commit(&mut self) -> Result<(), Refused>
        ensures flushed { OnOk result (IsTrue self.old.volume.is_sound → (self.new.volume.image ≡ self.old.volume.image) × (self.new.volume.stored ≡ self.old.volume.image)) }
        ensures committed { OnOk result (IsCommit self.old.volume.is_sound self.old.volume.image self.new.volume.image self.old.volume.committed self.new.volume.committed) }
        ensures fails { OnErr result (FailsCommit self.old.volume.is_sound self.old.volume.image self.old.volume.committed self.new.volume.committed) }
        ensures same { self.new ≡ record self.old { volume = self.new.volume; broken = is_broken_by result } }
        ensures broken { self.old.broken ≡ was_broken result }
        ensures untouched { self.old.broken ≡ true → self.new ≡ self.old }
        ensures refusal { OnlyDeviceOrBroken result }
        ensures counts { CountsDevice result self.old.volume.failures self.new.volume.failures }
        ensures sound { StaysSound result self.old.volume.is_sound self.new.volume.is_sound }
        ensures sizes { (self.new.volume.size ≡ self.old.volume.size) × (self.new.volume.sizes ≡ self.old.volume.sizes) }
    {
        if self.broken {
            return Err(Refused::Broken);
        }
        match self.volume.commit() {
            Ok(()) => Ok(()),
            Err(refused) => {
                self.last_given.forget();
                self.broken = true;
                Err(refused)
            }
        }
    }
}

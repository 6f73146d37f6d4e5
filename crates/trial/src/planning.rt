//! A plan, line by line.
ghost use Rattle.std.specs.Prelude.{◌≡◌, length, IfOk, MatchResult};
ghost use Rattle.runs.specs.Readings.{call_of};
ghost use Rattle.runs.specs.declared.calls.SenderCall.TheVariants.{Open, TornOpen};
ghost use Rattle.runs.specs.declared.calls.ReceiverCall.TheVariants.{Pair};
ghost use Rattle.trial.specs.Plans.{BlankPlan, Calls, CallsOnly, Does, NotTaken, OutOfMemory, Receipts, Sends, Sent, SetsAllowance, SetsKey, SetsLabel, SetsMemory, SetsReceiver, SetsRoom, SetsSender, TooLate, Unstarted, asked, delivering, handing, holding, sent_by};
ghost use Rattle.trial.specs.declared.plan.PlanFault.TheVariants.{Late, NoSuchSend};

use crate::memory::Memory;
use crate::plan::{Plan, PlanFault, Planned, Setup};
use runs::calls::{Pairing, ReceiverCall, ReceiverStep, SenderCall, SenderStep};
use scenario::line::Line;
use std::alloc::{AllocError, Global};
use texts::names::CipherName;

impl Plan {
    /// A plan that asks for no step: `grain128x32` at both ends, a fresh strip of 4 octets, neither key nor label, an allowance of 1,024 octets, and room for any frame.
    pub fn new(heap: Global) -> Result<Plan, AllocError>
        ensures { IfOk result BlankPlan }
    {
        Ok(Plan {
            setup: Setup {
                sender: CipherName::Grain128Wide,
                receiver: CipherName::Grain128Wide,
                memory: Memory::fresh_strip(heap, 4)?,
                pairing: Pairing {
                    key: Vec::new(heap),
                    label: Vec::new(heap),
                    allowance: 1024,
                },
                room: 1034,
            },
            calls: Vec::new(heap),
            receipts: Vec::new(heap),
            sends: Vec::new(heap),
        })
    }

    // Engines and memory are set before the first step.
    fn check_unstarted(&self) -> Result<(), PlanFault>
        ensures { MatchResult result (λ _. Unstarted self.now) (λ e. (e ≡ Late) × (Unstarted self.now → ⊥)) }
    {
        if self.calls.is_empty() && self.receipts.is_empty() {
            Ok(())
        } else {
            Err(PlanFault::Late)
        }
    }

    // Adds a call on the sender with a buffer of so many octets, and answers its index.
    fn push_call(&mut self, heap: Global, call: SenderCall, room: u32) -> Result<usize, PlanFault>
        ensures { MatchResult result
            (λ i. Calls self.old self.new (call_of call room) room
            × (self.new.sends ≡ self.old.sends)
            × (i ≡ length self.old.calls.items))
            (λ e. OutOfMemory self.old self.new e) }
    {
        let index = self.calls.len();
        let out = vec![in heap; 0; room as usize]?;
        self.calls.push(SenderStep::new(call, out))?;
        Ok(index)
    }

    // Adds a call on the sender that is no send: its buffer is empty.
    fn add_call(&mut self, heap: Global, call: SenderCall) -> Result<Planned, PlanFault>
        ensures { MatchResult result
            (λ x. CallsOnly self.old self.new x (call_of call 0))
            (λ e. OutOfMemory self.old self.new e) }
    {
        Ok(Planned::Call(self.push_call(heap, call, 0)?))
    }

    // Adds a call on the receiver with a buffer of so many octets.
    fn add_receipt(
        &mut self,
        heap: Global,
        call: ReceiverCall,
        room: u32,
    ) -> Result<Planned, PlanFault>
        ensures { MatchResult result
            (λ x. Receipts self.old self.new x (asked call) room)
            (λ e. OutOfMemory self.old self.new e) }
    {
        let index = self.receipts.len();
        let out = vec![in heap; 0; room as usize]?;
        self.receipts.push(ReceiverStep::new(call, out))?;
        Ok(Planned::Receipt(index))
    }

    // A copy of the key, the label and the allowance that are set.
    fn pairing(&self, heap: Global) -> Result<Pairing, AllocError>
        ensures key { IfOk result (λ p. p.key.items ≡ self.now.setup.pairing.key.items) }
        ensures label { IfOk result (λ p. p.label.items ≡ self.now.setup.pairing.label.items) }
        ensures allowance { IfOk result (λ p. p.allowance ≡ self.now.setup.pairing.allowance) }
    {
        let set = &self.setup.pairing;
        Ok(Pairing {
            key: set.key.clone()?,
            label: set.label.clone()?,
            allowance: set.allowance,
        })
    }

    fn open(&mut self, heap: Global) -> Result<Planned, PlanFault>
        ensures { MatchResult result
            (λ x. CallsOnly self.old self.new x (call_of (Open self.old.setup.pairing) 0))
            (λ e. OutOfMemory self.old self.new e) }
    {
        let pairing = self.pairing(heap)?;
        self.add_call(heap, SenderCall::Open(pairing))
    }

    fn torn_open(&mut self, heap: Global, writes_done: u32, junk: u32) -> Result<Planned, PlanFault>
        ensures { MatchResult result
            (λ x. CallsOnly self.old self.new x (call_of (TornOpen self.old.setup.pairing writes_done junk) 0))
            (λ e. OutOfMemory self.old self.new e) }
    {
        let pairing = self.pairing(heap)?;
        let call = SenderCall::TornOpen {
            pairing,
            writes_done,
            junk,
        };
        self.add_call(heap, call)
    }

    fn send(&mut self, heap: Global, plain: Vec<u8>) -> Result<Planned, PlanFault>
        ensures { MatchResult result
            (λ x. Sends self.old self.new x plain.items self.old.setup.room)
            (λ e. OutOfMemory self.old self.new e) }
    {
        self.sends.reserve(1)?;
        let room = self.setup.room;
        let call = self.push_call(heap, SenderCall::Send { plain }, room)?;
        self.sends.push_reserved(call);
        Ok(Planned::Send {
            call,
            number: self.sends.len(),
        })
    }

    fn pair(&mut self, heap: Global) -> Result<Planned, PlanFault>
        ensures { MatchResult result
            (λ x. Receipts self.old self.new x (asked (Pair self.old.setup.pairing)) 0)
            (λ e. OutOfMemory self.old self.new e) }
    {
        let pairing = self.pairing(heap)?;
        self.add_receipt(heap, ReceiverCall::Pair(pairing), 0)
    }

    // The index of the call of the line that sends and has this number among them, counted from 1.
    fn sent_by(&self, number: u32) -> Result<usize, PlanFault>
        ensures { MatchResult result
            (λ i. Sent self.now number × (i ≡ sent_by self.now number))
            (λ e. (e ≡ NoSuchSend) × (Sent self.now number → ⊥)) }
    {
        number
            .checked_sub(1)
            .and_then(|index| self.sends.get(index as usize).copied())
            .ok_or(PlanFault::NoSuchSend)
    }

    fn deliver(&mut self, heap: Global, call: usize, change: Vec<u8>) -> Result<Planned, PlanFault>
        ensures { MatchResult result
            (λ x. Receipts self.old self.new x (delivering call change.items) self.old.setup.room)
            (λ e. OutOfMemory self.old self.new e) }
    {
        let room = self.setup.room;
        self.add_receipt(heap, ReceiverCall::Deliver { call, change }, room)
    }

    fn noise(&mut self, heap: Global, octets: Vec<u8>) -> Result<Planned, PlanFault>
        ensures { MatchResult result
            (λ x. Receipts self.old self.new x (handing octets.items) self.old.setup.room)
            (λ e. OutOfMemory self.old self.new e) }
    {
        let room = self.setup.room;
        self.add_receipt(heap, ReceiverCall::Receive { octets }, room)
    }

    // The setters stay one for each thing that is set: each says in its contract which one, as a setter with a closure could not in fewer words.
    fn set_memory(&mut self, memory: Memory) -> Result<Planned, PlanFault>
        ensures { MatchResult result
            (λ x. Unstarted self.old × SetsMemory self.old self.new x (holding memory))
            (λ e. TooLate self.old self.new e) }
    {
        self.check_unstarted()?;
        self.setup.memory = memory;
        Ok(Planned::NoStep)
    }

    fn set_sender(&mut self, name: CipherName) -> Result<Planned, PlanFault>
        ensures { MatchResult result
            (λ x. Unstarted self.old × SetsSender self.old self.new x name)
            (λ e. TooLate self.old self.new e) }
    {
        self.check_unstarted()?;
        self.setup.sender = name;
        Ok(Planned::NoStep)
    }

    fn set_receiver(&mut self, name: CipherName) -> Result<Planned, PlanFault>
        ensures { MatchResult result
            (λ x. Unstarted self.old × SetsReceiver self.old self.new x name)
            (λ e. TooLate self.old self.new e) }
    {
        self.check_unstarted()?;
        self.setup.receiver = name;
        Ok(Planned::NoStep)
    }

    fn set_key(&mut self, octets: Vec<u8>) -> Planned
        ensures { SetsKey self.old self.new result octets.items }
    {
        self.setup.pairing.key = octets;
        Planned::NoStep
    }

    fn set_label(&mut self, octets: Vec<u8>) -> Planned
        ensures { SetsLabel self.old self.new result octets.items }
    {
        self.setup.pairing.label = octets;
        Planned::NoStep
    }

    fn set_allowance(&mut self, count: u32) -> Planned
        ensures { SetsAllowance self.old self.new result count }
    {
        self.setup.pairing.allowance = count;
        Planned::NoStep
    }

    fn set_room(&mut self, count: u32) -> Planned
        ensures { SetsRoom self.old self.new result count }
    {
        self.setup.room = count;
        Planned::NoStep
    }

    /// Takes one line of a scenario: sets what it sets, or adds the step that it asks for, and answers where that stands.
    /// A line that sets an engine or the memory after the first step is refused, and so are one that names a frame that no line above sends and one that there is no memory for; the plan then holds what it held.
    pub fn take(&mut self, heap: Global, line: Line) -> Result<Planned, PlanFault>
        ensures { MatchResult result
            (λ x. Does self.old self.new x line)
            (λ e. NotTaken self.old self.new line e) }
    {
        match line {
            Line::Open => self.open(heap),
            Line::TornOpen { writes, junk } => self.torn_open(heap, writes, junk),
            Line::Send(plain) => self.send(heap, plain),
            Line::Close => self.add_call(heap, SenderCall::Close),
            Line::Cut => self.add_call(heap, SenderCall::PowerCut),
            Line::Pair => self.pair(heap),
            Line::Deliver(number) => {
                let call = self.sent_by(number)?;
                self.deliver(heap, call, Vec::new(heap))
            }
            Line::Alter { frame, at, change } => {
                let call = self.sent_by(frame)?;
                let mut whole = vec![in heap; 0; at as usize]?;
                whole.extend_from_slice(change.as_slice())?;
                self.deliver(heap, call, whole)
            }
            Line::Noise(octets) => self.noise(heap, octets),
            Line::Strip(octets) => self.set_memory(Memory::Strip(octets)),
            Line::FreshStrip(count) => self.set_memory(Memory::fresh_strip(heap, count)?),
            Line::Column(octets) => self.set_memory(Memory::column(heap, octets.as_slice())?),
            Line::FreshColumn(count) => self.set_memory(Memory::fresh_column(heap, count)?),
            Line::Sender(name) => self.set_sender(name),
            Line::Receiver(name) => self.set_receiver(name),
            Line::Key(octets) => Ok(self.set_key(octets)),
            Line::Label(octets) => Ok(self.set_label(octets)),
            Line::Allowance(count) => Ok(self.set_allowance(count)),
            Line::Room(count) => Ok(self.set_room(count)),
            Line::Blank => Ok(Planned::NoStep),
        }
    }
}

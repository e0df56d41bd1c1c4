//! The changes that are held back: those of each port in the order of their times.
ghost use Rattle.std.specs.Prelude.{◌≡◌, ◌<◌, ◌∷◌, [], IfOk, IfSome, IfNone, OnOk, None, Some, slice_index_or};
ghost use Rattle.gp_machine.specs.Config.{max_ports};
ghost use Rattle.gp_waves.specs.declared.held.What.TheVariants as kinds;
ghost use Rattle.gp_waves.specs.Held as spec;

use crate::fault::WavesFault;
use crate::lanes::MOST_LANES;
use gp_dump::{Change, PORTS, PortChange, UnitChange};
use std::alloc::{AllocError, Global};
use std::collections::VecDeque;
use std::marker::Model;

/// How many changes are held back at most. The changes of a port that is further behind the others than these stand
/// at a later time than theirs.
pub(crate) const MOST_HELD: usize = 65_536;

/// What changes at a port.
#[derive(Clone, Copy)]
enum What {
    OfPort(PortChange),
    OfUnit { lane: u16, what: UnitChange },
}

/// A change of a port, and its time in nanoseconds.
#[derive(Clone, Copy)]
struct HeldChange {
    time: u64,
    what: What,
}

/// A change that is due, and its time in nanoseconds.
#[derive(Clone, Copy)]
pub(crate) struct Due {
    pub(crate) time: u64,
    pub(crate) change: Change,
}

/// The changes of a port that are held back, and how many lanes have to be declared for all that were ever held back,
/// if any was.
#[derive(Drop)]
pub(crate) struct Queue {
    changes: VecDeque<HeldChange>,
    lanes: Option<u16>,
}

impl Model for Queue {
    ghost use Rattle.gp_waves.specs.Queue.{AreHeld, QueueState};

    ghost Value = { QueueState };

    ghost view = { λ q. record { changes = q.changes.items; lanes = q.lanes } };

    ghost invariant = { λ q. AreHeld q.lanes q.changes.items };
}

/// The changes that are held back.
#[derive(Drop)]
pub(crate) struct Held {
    /// Those of each port.
    queues: Vec<Queue>,
    /// How many they are.
    count: usize,
}

impl Model for Held {
    ghost use Rattle.gp_waves.specs.Held.{HeldState};

    ghost Value = { HeldState };

    ghost view = { λ h. record { queues = h.queues.items; count = h.count } };
}

impl What {
    /// Gives how many lanes its port has at least.
    fn lanes(&self) -> u16
        requires { spec.fits (Some spec.most_lanes) self.now }
        ensures fits { spec.fits (Some result) self.now }
        ensures value { result ≡ spec.lanes_for self.now }
    {
        match self {
            What::OfPort(_) => 0,
            What::OfUnit { lane, .. } => *lane + 1,
        }
    }
}

/// Gives the lanes of a port that has those of both.
pub(crate) fn wider(first: Option<u16>, second: Option<u16>) -> Option<u16>
    ensures first { spec.IsWithin first result }
    ensures second { spec.IsWithin second result }
    ensures value { result ≡ spec.wider first second }
{
    match (first, second) {
        (Some(first), Some(second)) => Some(first.max(second)),
        (Some(first), None) => Some(first),
        (None, second) => second,
    }
}

impl Queue {
    /// None is held back.
    fn begin(alloc: Global) -> Queue
        ensures { result ≡ spec.no_queue }
    {
        Queue {
            changes: VecDeque::new(alloc),
            lanes: None,
        }
    }

    /// Holds a change back, behind the others.
    fn keep(&mut self, held: HeldChange) -> Result<(), AllocError>
        requires { spec.fits (Some spec.most_lanes) held.what }
        ensures { OnOk result (self.new ≡ spec.queued held self.old) }
    {
        self.lanes = wider(self.lanes, Some(held.what.lanes()));
        self.changes.push_back(held)?;
        Ok(())
    }

    /// Takes the first change, if there is one.
    fn take(&mut self) -> Option<HeldChange>
        ensures fits { IfSome result (λ held. spec.fits self.old.lanes held.what) }
        ensures most { IfSome result (λ held. spec.fits (Some spec.most_lanes) held.what) }
        ensures first { IfSome result (λ held. self.old.changes ≡ held ∷ self.new.changes) }
        ensures none { IfNone result (self.old.changes ≡ []) }
        ensures lanes { self.new.lanes ≡ self.old.lanes }
    {
        self.changes.pop_front()
    }

    /// Gives when the first change is due, if there is one.
    fn first_time(&self) -> Option<u64>
        ensures { result ≡ spec.time_of_first self.now.changes }
    {
        let first = self.changes.front()?;
        Some(first.time)
    }
}

impl HeldChange {
    /// Gives it as one of a port.
    fn of(self, port: u8) -> Change
        ensures { result ≡ spec.change_of port self.what }
    {
        match self.what {
            What::OfPort(what) => Change::Port { number: port, what },
            What::OfUnit { lane, what } => Change::Unit {
                number: port,
                lane,
                what,
            },
        }
    }
}

/// Gives the change that is due first, the first of several: one of another port, or that of this port.
fn earlier(first: Option<(u64, u8)>, time: Option<u64>, port: u8) -> Option<(u64, u8)>
    requires first { IfSome first (λ due. due.1 < max_ports) }
    requires port { port < max_ports }
    ensures low { IfSome result (λ due. due.1 < max_ports) }
    ensures value { result ≡ spec.earlier first time port }
{
    let Some(time) = time else {
        return first;
    };
    match first {
        Some((before, other)) if before <= time => Some((before, other)),
        _ => Some((time, port)),
    }
}

impl Held {
    /// None is held back.
    pub(crate) fn begin(alloc: Global) -> Result<Held, AllocError>
        ensures { IfOk result (λ held. held ≡ spec.nothing_held) }
    {
        let mut queues = Vec::with_capacity(alloc, PORTS)?;
        'queues: for _count in 0..PORTS {
            queues.push(Queue::begin(alloc))?;
        }
        Ok(Held { queues, count: 0 })
    }

    /// Holds a change back, behind those of its port.
    fn keep(&mut self, port: u8, held: HeldChange) -> Result<(), AllocError>
        requires { spec.fits (Some spec.most_lanes) held.what }
        ensures { OnOk result (self.new ≡ spec.kept port held self.old) }
    {
        match self.queues.get_mut(usize::from(port)) {
            Some(queue) => queue.keep(held)?,
            None => return Ok(()),
        }
        self.count = self.count.saturating_add(1);
        Ok(())
    }

    /// Holds back a change of a variable of a port.
    pub(crate) fn keep_port(
        &mut self,
        port: u8,
        time: u64,
        what: PortChange,
    ) -> Result<(), AllocError>
        ensures { OnOk result (self.new ≡ spec.kept port (record { time = time; what = kinds.OfPort what }) self.old) }
    {
        let what = What::OfPort(what);
        self.keep(port, HeldChange { time, what })
    }

    /// Holds back a change of a variable of a unit's lane. Full where no port has that lane.
    pub(crate) fn keep_unit(
        &mut self,
        port: u8,
        time: u64,
        lane: u16,
        what: UnitChange,
    ) -> Result<(), WavesFault>
        ensures { OnOk result (self.new
            ≡ spec.kept port (record { time = time; what = kinds.OfUnit lane what }) self.old) }
    {
        if lane >= MOST_LANES {
            return Err(WavesFault::Full);
        }
        let what = What::OfUnit { lane, what };
        self.keep(port, HeldChange { time, what })?;
        Ok(())
    }

    /// Gives how many lanes of a port have to be declared for its changes, if it has to be.
    pub(crate) fn lanes_of(&self, port: usize) -> Option<u16>
        ensures { result ≡ slice_index_or (spec.held_lanes self.now) port None }
    {
        match self.queues.get(port) {
            Some(queue) => queue.lanes,
            None => None,
        }
    }

    /// Tells whether more are held back than may be.
    pub(crate) fn is_full(&self) -> bool
        ensures { result ≡ spec.is_full self.now }
    {
        self.count > MOST_HELD
    }

    /// Gives when the first change of a port is due.
    fn first_of(&self, port: u8) -> Option<u64>
        ensures { result ≡ spec.time_of_first (spec.queue_at self.now.queues port).changes }
    {
        self.queues.get(usize::from(port))?.first_time()
    }

    /// Gives the port whose first change is due first, the first of several.
    fn first_port(&self) -> Option<u8>
        ensures low { IfSome result (λ port. port < max_ports) }
        ensures value { result ≡ spec.first_port self.now.queues }
    {
        let mut first: Option<(u64, u8)> = None;
        'ports: for port in 0..PORTS as u8 {
            first = earlier(first, self.first_of(port), port);
        }
        let (_, port) = first?;
        Some(port)
    }

    /// Takes the change that is due first, if there is one.
    pub(crate) fn take_first(&mut self) -> Option<Due>
        ensures declared { IfSome result (λ due. spec.HasVariable (spec.held_lanes self.old) due.change) }
        ensures same { spec.held_lanes self.new ≡ spec.held_lanes self.old }
        ensures taken { IfSome result (λ due. spec.Takes self.old due self.new) }
        ensures none { IfNone result (spec.first_port self.old.queues ≡ None) }
        ensures still { IfNone result (self.new ≡ self.old) }
    {
        let port = self.first_port()?;
        let queue = self.queues.get_mut(usize::from(port))?;
        let held = queue.take()?;
        self.count = self.count.saturating_sub(1);
        Some(Due {
            time: held.time,
            change: held.of(port),
        })
    }
}

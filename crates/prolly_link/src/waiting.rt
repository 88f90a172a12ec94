//! Waiting for a ring that is full or empty.
ghost use Rattle.std.specs.Prelude.{◌≡◌, [], ◌∷◌, ◌++◌, IfNone, IfSome};
ghost use Rattle.rtrb.specs.Ring.{sent as pushed, received as popped, known_items};
ghost use Rattle.prolly_link.specs.Identity.{producer_link, consumer_link};

use rtrb::{Consumer, Producer, PushError};
use std::alloc::{AllocError, Global};
use std::hint;
use std::sync::atomic::{AtomicU64, Ordering};
use std::sync::{Arc, Wait};
use std::time::Duration;

/// Rounds of a wait that only look again: one or two microseconds. From then on it sleeps.
const LOOKS: u32 = 32;

/// How long the first sleep of a wait is at most. Each further one is up to twice as long as the
/// one before.
const FIRST_SLEEP_MILLIS: u64 = 16;

/// Enough of them to come from 16 milliseconds to a second.
const MOST_DOUBLINGS: u32 = 6;

/// How an end waits: it looks for a while, then it sleeps until the other end wakes it.
///
/// A sleep has a limit of time, for what nobody wakes it for: an end that was dropped, and fewer
/// messages than the other end wakes it for. The limit doubles, so that a long wait takes next to
/// no time of the processor.
#[derive(Drop)]
pub(crate) struct Patience {
    own: Arc<Bell>,
    peer: Arc<Bell>,
}

impl Patience {
    /// The patience of each of the two ends of a ring.
    pub(crate) fn pair(alloc: Global) -> Result<(Patience, Patience), AllocError> {
        let (first, first_seen) = shared(alloc, Bell::new())?;
        let (second, second_seen) = shared(alloc, Bell::new())?;
        Ok((
            Patience {
                own: first,
                peer: second_seen,
            },
            Patience {
                own: second,
                peer: first_seen,
            },
        ))
    }

    /// Waits a little, the longer the more rounds of this wait went before. Gives how many have
    /// gone by now: to lie down is no round, so each round after the looks is one sleep. The caller
    /// looks for what it waits for before each call.
    #[cold]
    #[inline(never)]
    pub(crate) fn pause<R: Wait>(&self, rt: &R, rounds: u32) -> u32 {
        if rounds < LOOKS {
            hint::spin_loop();
        } else if self.own.is_asleep() {
            let doublings = (rounds - LOOKS).min(MOST_DOUBLINGS);
            self.own
                .sleep(rt, Duration::from_millis(FIRST_SLEEP_MILLIS << doublings));
        } else {
            self.own.lie_down();
            return rounds;
        }
        rounds.saturating_add(1)
    }

    /// The end of a wait of so many rounds. From the last look on the owner may have lain down.
    pub(crate) fn end_wait(&self, rounds: u32) {
        if rounds >= LOOKS {
            self.own.get_up();
        }
    }

    /// Whether the other end sleeps, or is about to.
    pub(crate) fn peer_sleeps(&self) -> bool {
        self.peer.is_asleep()
    }

    /// Wakes the other end.
    #[cold]
    #[inline(never)]
    pub(crate) fn wake_peer(&self) {
        self.peer.ring();
    }
}

/// The word of a bell whose owner is awake.
const AWAKE: u32 = 0;

/// The word of a bell whose owner sleeps, or is about to.
const ASLEEP: u32 = 1;

/// A word that its owner sleeps on, and that another thread wakes it by.
///
/// The owner says that it is about to sleep (`lie_down`), looks once more for what it waits for,
/// and sleeps. The other thread first does what the owner waits for, and then looks at the bell. So
/// the owner finds it, or the other thread finds that the owner sleeps: each step on the word is
/// sequentially consistent, and so is each step on the ring's positions, on which this rests. And a
/// sleep has a limit of time.
#[derive(Drop)]
pub(crate) struct Bell {
    word: AtomicU64,
}

impl Bell {
    /// The bell of an owner that is awake.
    pub(crate) fn new() -> Bell {
        Bell {
            word: AtomicU64::new(u64::from(AWAKE)),
        }
    }

    /// Says that the owner is about to sleep.
    pub(crate) fn lie_down(&self) {
        self.word.store(u64::from(ASLEEP), Ordering::SeqCst);
    }

    /// Says that the owner is awake.
    pub(crate) fn get_up(&self) {
        self.word.store(u64::from(AWAKE), Ordering::SeqCst);
    }

    /// Whether the owner sleeps, or is about to.
    pub(crate) fn is_asleep(&self) -> bool {
        self.word.load(Ordering::SeqCst) == u64::from(ASLEEP)
    }

    /// Sleeps until it rings, but no longer than this. Where it rang since `lie_down` it returns at
    /// once.
    pub(crate) fn sleep<R: Wait>(&self, rt: &R, longest: Duration) {
        self.word.park_timeout(rt, ASLEEP, longest);
    }

    /// Wakes the owner.
    pub(crate) fn ring(&self) {
        self.get_up();
        self.word.wake_one();
    }
}

/// A value that two hold.
pub(crate) fn shared<T: Drop>(alloc: Global, value: T) -> Result<(Arc<T>, Arc<T>), AllocError> {
    let one = Arc::new(alloc, value)?;
    Ok((one.clone()?, one))
}

/// When a consumer that sleeps is woken for a message.
#[derive(Clone, Copy, PartialEq, Eq)]
pub(crate) enum Wake {
    /// At once: there is much to do for it, or nothing comes after it.
    AtOnce,
    /// Once half of the ring is full, so that one system call serves many messages.
    AtHalf,
}

/// Pushes a message, waiting for room.
pub(crate) fn push_waiting<M, R: Wait>(
    rt: &R,
    patience: &Patience,
    ring: &mut Producer<M>,
    mut message: M,
    wake: Wake,
)
    ensures link { producer_link ring.new ≡ producer_link ring.old }
    ensures pushed { pushed ring.new ≡ pushed ring.old ++ message ∷ [] }
{
    let mut rounds = 0u32;
    for _ in rt.forever() {
        match ring.push(message) {
            Ok(()) => {
                patience.end_wait(rounds);
                if patience.peer_sleeps()
                    && (wake == Wake::AtOnce || ring.slots() <= ring.capacity() / 2)
                {
                    patience.wake_peer();
                }
                return;
            }
            Err(PushError::Full(back)) => message = back,
        }
        rounds = patience.pause(rt, rounds);
    }
    unreachable!()
}

/// Pops a message, waiting for one. `None` where the ring is empty and its producer was dropped. A
/// producer that sleeps is woken once half of the ring is empty.
pub(crate) fn pop_waiting<M, R: Wait>(
    rt: &R,
    patience: &Patience,
    ring: &mut Consumer<M>,
) -> Option<M>
    ensures link { consumer_link ring.new ≡ consumer_link ring.old }
    ensures none { IfNone result ((popped ring.new ≡ popped ring.old) ×
        (known_items ring.new ≡ [])) }
    ensures some { IfSome result (λ m. popped ring.new ≡ popped ring.old ++ m ∷ []) }
{
    let mut rounds = 0u32;
    for _ in rt.forever() {
        // Asked before the pop: all that a producer pushed before it was dropped is then in the
        // ring.
        let abandoned = ring.is_abandoned();
        if let Ok(message) = ring.pop() {
            patience.end_wait(rounds);
            if patience.peer_sleeps() && ring.slots() <= ring.capacity() / 2 {
                patience.wake_peer();
            }
            return Some(message);
        }
        if abandoned {
            return None;
        }
        rounds = patience.pause(rt, rounds);
    }
    unreachable!()
}

// Replies as a number and words.
ghost use Rattle.std.specs.Prelude.{◌≡◌, List, [], ◌∷◌, ℕ, ◌≤◌, length};
ghost use Rattle.graph.specs.Refusal.{over};
ghost use Rattle.graph.specs.Code.{reply_of};
ghost use Rattle.run.specs.Code.{counts};
ghost use Rattle.apply.specs.Code.{reporting};
ghost use Rattle.settled_check.specs.Code.{spotted};
ghost use Rattle.digest.specs.Code.{digest_of};
ghost use Rattle.reader.specs.Code.{sized};
ghost use Rattle.spelling.specs.Code.{reply_words, Tells, open_words, tally_words, report_words, check_words, chosen_words, size_words, one_word, digest_words};

use apply::Report;
use choice::Choice;
use digest::Digest;
use graph::Refusal;
use reader::network_text::Size;
use run::Tally;
use settled_check::Spot;

// What a call answers where it is accepted.
pub trait Answer {
    // Its words, for which a reply list has room.
    ghost words: { Self → List ℕ };

    // They go to the front of the list.
    fn put(self, reply: &mut [u64])
        requires { reply_words ≤ length reply.old }
        ensures { reply.new ≡ over (words self) reply.old };
}

// A reply as a number and words: those of the answer, or the place of a refusal.
pub fn spell<T: Answer>(r: Result<T, Refusal>, reply: &mut [u64]) -> u32
    requires { reply_words ≤ length reply.old }
    ensures { Tells T.words (reply_of (λ a. a) r) result reply.old reply.new }
{
    match r {
        Ok(answer) => {
            answer.put(reply);
            0
        }
        Err(refusal) => spell_refusal(refusal.number(), refusal.place(), reply),
    }
}

// A refusal by any number and place.
pub fn spell_refusal(number: u32, place: usize, reply: &mut [u64]) -> u32
    requires { reply_words ≤ length reply.old }
    ensures { (result ≡ number) × (reply.new ≡ over (place ∷ []) reply.old) }
{
    reply[0] = place as u64;
    number
}

// An opening, like a preview, tells only that it was accepted.
impl Answer for () {
    ghost words = { open_words };

    fn put(self, _reply: &mut [u64]) {}
}

impl Answer for Tally {
    ghost words = { λ t. tally_words (counts t) };

    fn put(self, reply: &mut [u64]) {
        reply[0] = self.taken;
        reply[1] = self.rounds;
        reply[2] = self.stores;
    }
}

impl Answer for Report {
    ghost words = { λ r. report_words (reporting r) };

    fn put(self, reply: &mut [u64]) {
        reply[0] = self.count as u64;
        reply[1] = self.affected;
        reply[2] = self.stores;
    }
}

// A settled check: where the first edge is that could still better a word, if any is.
impl Answer for Option<Spot> {
    ghost words = { λ s. check_words (spotted s) };

    fn put(self, reply: &mut [u64]) {
        match self {
            None => {
                reply[0] = 1;
            }
            Some(spot) => {
                reply[0] = 0;
                reply[1] = spot.side as u64;
                reply[2] = spot.row as u64;
                reply[3] = spot.record as u64;
            }
        }
    }
}

impl Answer for Choice {
    ghost words = { chosen_words };

    fn put(self, reply: &mut [u64]) {
        let [a, b, c, d] = self.vertices;
        reply[0] = self.count as u64;
        reply[1] = a as u64;
        reply[2] = b as u64;
        reply[3] = c as u64;
        reply[4] = d as u64;
    }
}

// A network that was read.
impl Answer for Size {
    ghost words = { λ s. size_words (sized s) };

    fn put(self, reply: &mut [u64]) {
        reply[0] = self.n as u64;
        reply[1] = self.count as u64;
    }
}

// A single number: where a row starts, how long a text is, how many sources there are; how many vertices a route has.
impl Answer for usize {
    ghost words = { one_word };

    fn put(self, reply: &mut [u64]) {
        reply[0] = self as u64;
    }
}

impl Answer for u32 {
    ghost words = { one_word };

    fn put(self, reply: &mut [u64]) {
        reply[0] = self as u64;
    }
}

impl Answer for Digest {
    ghost words = { λ d. digest_words (digest_of d) };

    fn put(self, reply: &mut [u64]) {
        reply[0] = self.gained as u64;
        reply[1] = self.lost as u64;
        reply[2] = self.better as u64;
        reply[3] = self.worse as u64;
        reply[4] = self.most as u64;
    }
}

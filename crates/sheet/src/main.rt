// A field engineer's sheet: a small network through the calls. It is opened and asked, loses the edge 0→1 and gets it back, is
// handed a batch with one bad change among ten, and is asked from a vertex that was never used before, also with a schedule.
#![tactic(auto)]

use graph::Refusal;
use std::io;

// Its vertices, its one landmark, and the words of its rows: one landmark's, of each property.
const VERTICES: u32 = 4;

const LANDMARKS: [u32; 1] = [0];

const ROW_WORDS: usize = 20;

// A network with its rows.
#[derive(Drop)]
struct Deck {
    tails: [u32; graph::MAX_EDGES],
    heads: [u32; graph::MAX_EDGES],
    weights: [u32; graph::MAX_EDGES],
    count: u32,
    forward: [u32; ROW_WORDS],
    backward: [u32; ROW_WORDS],
}

// The names of the five properties, as they are printed.
fn name_of(p: u32) -> &'static str {
    match p {
        1 => "time",
        2 => "handovers",
        3 => "headroom",
        4 => "worst",
        _ => "reach",
    }
}

fn print_words(rt: &HostRuntime, words: [u32; 4]) -> io::Result<()> {
    let [a, b, c, d] = words;
    print!(rt; " {a} {b} {c} {d}")
}

fn print_refusal(rt: &HostRuntime, refusal: Refusal) -> io::Result<()> {
    let number = refusal.number();
    let place = refusal.place();
    println!(rt; "refused {number} {place}")
}

// Deck A's records, before it is opened.
fn deck_a() -> Deck {
    let mut tails = [0u32; graph::MAX_EDGES];
    let mut heads = [0u32; graph::MAX_EDGES];
    let mut weights = [0u32; graph::MAX_EDGES];
    tails[2] = 1;
    tails[3] = 2;
    tails[4] = 3;
    heads[0] = 1;
    heads[1] = 3;
    heads[2] = 2;
    heads[3] = 1;
    heads[4] = 2;
    weights[0] = 4;
    weights[1] = 9;
    weights[2] = 4;
    weights[3] = 4;
    weights[4] = 2;
    Deck {
        tails,
        heads,
        weights,
        count: 5,
        forward: [0; ROW_WORDS],
        backward: [0; ROW_WORDS],
    }
}

impl Deck {
    // Opens it.
    fn open(&mut self, rt: &HostRuntime) -> io::Result<()> {
        let opened = open::open(
            VERTICES,
            &LANDMARKS,
            &self.tails,
            &self.heads,
            &self.weights,
            self.count,
            &mut self.forward,
            &mut self.backward,
        );
        match opened {
            Ok(()) => println!(rt; "opened"),
            Err(refusal) => print_refusal(rt, refusal),
        }
    }

    // Asks for one property from one vertex, and prints the settled words and the tally.
    fn ask(
        &self,
        rt: &HostRuntime,
        property: u32,
        source: u32,
        schedule: &[u32],
    ) -> io::Result<()> {
        let mut starts = [0u32; 4];
        let mut settled = [0u32; 4];
        let answer = query::query(
            VERTICES,
            &LANDMARKS,
            &self.tails,
            &self.heads,
            &self.weights,
            self.count,
            &self.forward,
            &self.backward,
            property,
            source,
            schedule,
            &mut starts,
            &mut settled,
        );
        match answer {
            Ok(tally) => {
                let name = name_of(property);
                let taken = tally.taken;
                let rounds = tally.rounds;
                let stores = tally.stores;
                print!(rt; "from {source} {name}")?;
                print_words(rt, settled)?;
                println!(rt; ", taken {taken} rounds {rounds} stores {stores}")
            }
            Err(refusal) => print_refusal(rt, refusal),
        }
    }

    // Hands in a batch, and prints its report or refusal.
    fn change(&mut self, rt: &HostRuntime, changes: &[[u32; 5]]) -> io::Result<()> {
        let applied = plain_batch::batch_part(
            VERTICES,
            &LANDMARKS,
            &mut self.tails,
            &mut self.heads,
            &mut self.weights,
            self.count,
            &mut self.forward,
            &mut self.backward,
            changes,
            0,
            changes.len(),
        );
        match applied {
            Ok(report) => {
                self.count = report.count;
                let now = report.count;
                let suspects = report.affected;
                let stores = report.stores;
                println!(rt; "count {now} suspects {suspects} stores {stores}")
            }
            Err(refusal) => print_refusal(rt, refusal),
        }
    }
}

// The edge 0→1 is taken.
fn take(rt: &HostRuntime, deck: &mut Deck) -> io::Result<()> {
    print!(rt; "take 0 1 4: ")?;
    deck.change(rt, &[[2, 0, 1, 4, 0]])?;
    deck.ask(rt, 1, 0, &[])?;
    deck.ask(rt, 3, 0, &[])
}

// It is put back.
fn put_back(rt: &HostRuntime, deck: &mut Deck) -> io::Result<()> {
    print!(rt; "add 0 1 4: ")?;
    deck.change(rt, &[[1, 0, 1, 4, 0]])?;
    deck.ask(rt, 1, 0, &[])
}

// Ten changes, of which the seventh takes an edge that is not there.
fn change_ten(rt: &HostRuntime, deck: &mut Deck) -> io::Result<()> {
    print!(rt; "ten changes: ")?;
    deck.change(
        rt,
        &[
            [1, 1, 0, 5, 0],
            [1, 1, 3, 6, 0],
            [1, 2, 0, 7, 0],
            [1, 2, 3, 8, 0],
            [1, 3, 0, 1, 0],
            [1, 3, 1, 2, 0],
            [2, 0, 2, 4, 0],
            [1, 0, 2, 3, 0],
            [2, 0, 3, 9, 0],
            [2, 3, 2, 2, 0],
        ],
    )?;
    deck.ask(rt, 1, 0, &[])
}

fn main(rt: HostRuntime) -> io::Result<()> {
    let mut deck = deck_a();
    deck.open(&rt)?;
    for property in 1..=5 {
        deck.ask(&rt, property, 0, &[])?;
    }
    take(&rt, &mut deck)?;
    put_back(&rt, &mut deck)?;
    change_ten(&rt, &mut deck)?;
    // vertex 3 asks, without a schedule and with one
    deck.ask(&rt, 1, 3, &[])?;
    deck.ask(&rt, 1, 3, &[2, 3, 1, 3, 2])
}

// Why a call is turned back: a case for each number of the table of refusals, with its place where that is not always 0. Number 13, `Unsettled`, never
// comes.
ghost use Rattle.std.specs.Prelude.{◌≡◌};
ghost use Rattle.graph.specs.Code.{number, place};

#[derive(Clone, Copy, Debug, PartialEq, Eq, Drop)]
pub enum Refusal {
    Size,
    Short,
    Landmarks,
    Table(usize),
    Property,
    Vertex(usize),
    Kind(usize),
    Loop(usize),
    Weight(usize),
    Present(usize),
    Absent(usize),
    Full(usize),
    Unsettled,
    Text(usize),
    NoRoute,
}

impl Refusal {
    // Its number in the table.
    pub fn number(self) -> u32
        ensures { result ≡ number self }
    {
        match self {
            Refusal::Size => 1,
            Refusal::Short => 2,
            Refusal::Landmarks => 3,
            Refusal::Table(_) => 4,
            Refusal::Property => 5,
            Refusal::Vertex(_) => 6,
            Refusal::Kind(_) => 7,
            Refusal::Loop(_) => 8,
            Refusal::Weight(_) => 9,
            Refusal::Present(_) => 10,
            Refusal::Absent(_) => 11,
            Refusal::Full(_) => 12,
            Refusal::Unsettled => 13,
            Refusal::Text(_) => 14,
            Refusal::NoRoute => 15,
        }
    }

    // Its place.
    pub fn place(self) -> usize
        ensures { result ≡ place self }
    {
        match self {
            Refusal::Size
            | Refusal::Short
            | Refusal::Landmarks
            | Refusal::Property
            | Refusal::Unsettled
            | Refusal::NoRoute => 0,
            Refusal::Table(at)
            | Refusal::Vertex(at)
            | Refusal::Kind(at)
            | Refusal::Loop(at)
            | Refusal::Weight(at)
            | Refusal::Present(at)
            | Refusal::Absent(at)
            | Refusal::Full(at)
            | Refusal::Text(at) => at,
        }
    }
}

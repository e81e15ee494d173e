// The types that the paper's definitions and the code share. What each case means, and which answer is right, stands in specs/.
#![tactic(auto)]

ghost use Rattle.std.specs.Prelude.{◌≡◌};
ghost use Rattle.paper.specs.Answers.{number_of, verdict_numbers, refused};

// Where the payload of a field starts, and how long it is.
#[derive(Clone, Copy)]
pub struct Extent {
    pub start: usize,
    pub size: usize,
}

// The fields of a step, and the place past them. A field that the step's tag does not ask for is empty.
#[derive(Clone, Copy)]
pub struct Fields {
    pub clause: Extent,
    pub witness: Extent,
    pub numbers: Extent,
    pub next: usize,
}

#[derive(Clone, Copy, PartialEq, Eq)]
pub enum Reason {
    WorkShort,
    FileLong,
    FormulaField,
    OverLimit,
    FormulaCode,
    FormulaTwice,
    FormulaEnd,
    ProofField,
    ProofCode,
    ProofTwice,
    NumberNotLive,
    NumbersUsedUp,
    NotRup,
    NotTrivialised,
    NotPassing,
}

#[derive(Clone, Copy)]
pub struct Refusal {
    pub reason: Reason,
    pub step: usize,
    pub place: usize,
}

#[derive(Clone, Copy)]
pub enum Verdict {
    Refuted(usize),
    Held(usize),
    Refused(Refusal),
}

// The verdict (0 refuted, 1 held, 2 refused), reason (0 unless refused), step, place (0 unless refused).
#[derive(Clone, Copy)]
pub struct Numbers {
    pub verdict: u8,
    pub reason: u8,
    pub step: usize,
    pub place: usize,
}

impl From<Reason> for u8 {
    ghost from_gives = { λ reason n. n ≡ number_of reason };

    fn from(reason: Reason) -> u8 {
        match reason {
            Reason::WorkShort => 1,
            Reason::FileLong => 2,
            Reason::FormulaField => 3,
            Reason::OverLimit => 4,
            Reason::FormulaCode => 5,
            Reason::FormulaTwice => 6,
            Reason::FormulaEnd => 7,
            Reason::ProofField => 8,
            Reason::ProofCode => 9,
            Reason::ProofTwice => 10,
            Reason::NumberNotLive => 11,
            Reason::NumbersUsedUp => 12,
            Reason::NotRup => 13,
            Reason::NotTrivialised => 14,
            Reason::NotPassing => 15,
        }
    }
}

impl Verdict {
    pub fn refused(reason: Reason, step: usize, place: usize) -> Verdict
        ensures { result ≡ refused reason step place }
    {
        Verdict::Refused(Refusal {
            reason,
            step,
            place,
        })
    }
}

impl From<Verdict> for Numbers {
    ghost from_gives = { λ verdict n. n ≡ verdict_numbers verdict };

    fn from(verdict: Verdict) -> Numbers {
        match verdict {
            Verdict::Refuted(step) => Numbers {
                verdict: 0,
                reason: 0,
                step,
                place: 0,
            },
            Verdict::Held(step) => Numbers {
                verdict: 1,
                reason: 0,
                step,
                place: 0,
            },
            Verdict::Refused(refusal) => Numbers {
                verdict: 2,
                reason: refusal.reason.into(),
                step: refusal.step,
                place: refusal.place,
            },
        }
    }
}

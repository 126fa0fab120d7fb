ghost use Rattle.std.specs.Prelude.{◌≡◌};
ghost use Rattle.engine.specs.Stages.{Advances};
ghost use Rattle.engine.specs.declared.frame.Next.TheVariants.{Ask};

use model::Root;
use storage::Question;

/// How far a half-answered question has come: which of its parts is asked, and what is known and
/// left by then.
// A value, and no closure that goes on: a frame is of fixed size and lies in fixed memory.
#[derive(Clone, Copy)]
pub(crate) enum Stage {
    /// The low is asked. The high is the answer to this question.
    Low(Question),
    /// The low of a product at a P or N fact is asked. These are the lows and the highs of its roots.
    LowProduct((Root, Root), (Root, Root)),
    /// High × high is asked. The low is known.
    HighHigh(Root, (Root, Root), (Root, Root)),
    /// Low × high is asked. The low and high × high are known, and high × low is this question.
    LowHigh(Root, Root, Question),
    /// High × low is asked. The low, high × high and low × high are known.
    HighLow(Root, Root, Root),
    /// The sum of the first two is asked. The low and high × low are known.
    FirstTwo(Root, Root),
    /// The high is asked. The low is known.
    High(Root),
}

/// A question that is half answered, at the fact at which its roots were split.
#[derive(Clone, Copy)]
pub(crate) struct Frame {
    pub(crate) question: Question,
    pub(crate) fact: u8,
    pub(crate) stage: Stage,
}

/// What a frame does with an answer.
// Its own enum: a part to ask and the two roots of a node are of different kinds, and neither is a failure, an absence
// or an end, so it has not the shape of Result, Option or ControlFlow.
#[derive(Clone, Copy)]
pub(crate) enum Next {
    /// It asks on.
    Ask(Question),
    /// It has a low and a high.
    Join(Root, Root),
}

impl Frame {
    /// Takes the answer to the part that was asked last.
    pub(crate) fn advance(&mut self, answer: Root) -> Next
        ensures { Advances self.old answer self.new result }
    {
        match self.stage {
            Stage::Low(high) => self.ask(high, Stage::High(answer)),
            Stage::LowProduct(a, b) => {
                self.ask(Question::Times(a.1, b.1), Stage::HighHigh(answer, a, b))
            }
            Stage::HighHigh(low, a, b) => {
                let high_low = Question::Times(a.1, b.0);
                self.ask(
                    Question::Times(a.0, b.1),
                    Stage::LowHigh(low, answer, high_low),
                )
            }
            Stage::LowHigh(low, high_high, high_low) => {
                self.ask(high_low, Stage::HighLow(low, high_high, answer))
            }
            Stage::HighLow(low, high_high, low_high) => self.ask(
                Question::Sum(high_high, low_high),
                Stage::FirstTwo(low, answer),
            ),
            Stage::FirstTwo(low, high_low) => {
                self.ask(Question::Sum(answer, high_low), Stage::High(low))
            }
            Stage::High(low) => Next::Join(low, answer),
        }
    }

    // Asks the next part.
    fn ask(&mut self, part: Question, stage: Stage) -> Next
        ensures frame { self.new ≡ record { question = self.old.question; fact = self.old.fact; stage = stage } }
        ensures asks { result ≡ Ask part }
    {
        self.stage = stage;
        Next::Ask(part)
    }
}

impl Default for Frame {
    /// What an unused place holds.
    fn default() -> Frame {
        let unused = Question::Minus(Root::Leaf(0));
        Frame {
            question: unused,
            fact: 0,
            stage: Stage::Low(unused),
        }
    }
}

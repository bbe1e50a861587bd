ghost use Rattle.std.specs.Prelude.{◌≡◌, [], ◌∷◌, ◌++◌, true, MatchOption};
ghost use Rattle.script_text.specs.Grammar.{is_full, parts_of};

use plain_text::Name;
use simplex::{Lists, Numbers};

/// A part of a form: a name, a number, a list of numbers, or a list of such lists.
#[derive(Debug, Drop)]
pub enum Part {
    Name(Name),
    Number(u64),
    List(Numbers),
    Lists(Lists),
}

/// What a command is spelled with: one part alone, or a word and one to four parts behind it.
#[derive(Debug, Drop)]
pub enum Form {
    Alone(Part),
    One(Name, Part),
    Two(Name, Part, Part),
    Three(Name, Part, Part, Part),
    Four(Name, Part, Part, Part, Part),
}

impl Form {
    /// The form with one more part at the end; of a name alone this makes a word. None exactly where the form is full.
    pub fn with(self, next: Part) -> Option<Form>
        ensures { MatchOption result (is_full self ≡ true) (λ r. parts_of r ≡ parts_of self ++ next ∷ []) }
    {
        match self {
            Form::Alone(first) => match first {
                Part::Name(word) => Some(Form::One(word, next)),
                Part::Number(_) | Part::List(_) | Part::Lists(_) => None,
            },
            Form::One(word, a) => Some(Form::Two(word, a, next)),
            Form::Two(word, a, b) => Some(Form::Three(word, a, b, next)),
            Form::Three(word, a, b, c) => Some(Form::Four(word, a, b, c, next)),
            Form::Four(..) => None,
        }
    }
}

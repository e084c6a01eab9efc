// Faults as document 01's "Who sends a fault" has them. The stages of a check make refusals; the calls make faults of them, in the name of
// one of three.
#![tactic(auto)]

ghost use Rattle.std.specs.Prelude.{◌≡◌};
ghost use Rattle.faults.specs.declared.Fault.TheVariants.{Author, Rows, Editor};

// A fault says whose it is: the table's author, whoever lends the rows, or the editor.
#[derive(Clone, Copy)]
pub enum Fault {
    Author { number: usize, place: usize },
    Rows { number: usize, place: usize },
    Editor { number: usize, place: usize },
}

// What a stage of the checks finds: the number of the first broken rule and its place.
#[derive(Clone, Copy)]
pub struct Refusal {
    pub number: usize,
    pub place: usize,
}

impl Refusal {
    // The fault in the name of the table's author.
    pub fn by_author(self) -> Fault
        ensures { result ≡ Author self.number self.place }
    {
        Fault::Author {
            number: self.number,
            place: self.place,
        }
    }

    // The same of whoever lends the rows.
    pub fn by_rows(self) -> Fault
        ensures { result ≡ Rows self.number self.place }
    {
        Fault::Rows {
            number: self.number,
            place: self.place,
        }
    }

    // The same of the editor.
    pub fn by_editor(self) -> Fault
        ensures { result ≡ Editor self.number self.place }
    {
        Fault::Editor {
            number: self.number,
            place: self.place,
        }
    }
}

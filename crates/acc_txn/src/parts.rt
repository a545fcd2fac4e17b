//! The parts of a transaction's body, as its text gives them.
ghost use Rattle.std.specs.Prelude.{◌≡◌, IfOk};

use acc_base::{Duplicate, OutOfMemory, Sequence, Text};
use acc_value::Key;

/// The LETs of a body, in the order of the text.
pub type Lets = Sequence<Let>;

/// Numbers of LETs, which are counted from 0.
pub type Numbers = Sequence<u8>;

/// The conditions after IF, in the order of the text. A list without any stands for a body without an IF.
pub type Conditions = Sequence<Condition>;

/// The updates of a body, in the order of the text.
pub type Updates = Sequence<Update>;

/// A sum: its terms with their signs, from the left. With one term it stands for the term's own value, which may be a text.
pub type Expr = Sequence<Part>;

/// A name that is bound to the cell of a key.
#[derive(Debug, Drop, PartialEq, Eq)]
pub struct Let {
    /// The name.
    pub name: Text,
    /// The key whose cell the name stands for.
    pub key: Key,
}

/// What a body answers.
#[derive(Debug, Drop, PartialEq, Eq)]
pub enum Select {
    /// No cells.
    Nothing,
    /// The cells of these names.
    Names(Numbers),
    /// The cell of this key.
    Get(Key),
}

/// How a comparison compares its two sums.
#[derive(Clone, Copy, Debug, PartialEq, Eq)]
pub enum Operator {
    /// `=`
    Equal = 1,
    /// `!=`
    Differs = 2,
    /// `<`
    Less = 3,
    /// `<=`
    AtMost = 4,
    /// `>`
    More = 5,
    /// `>=`
    AtLeast = 6,
}

/// A term of a sum.
#[derive(Debug, Drop, PartialEq, Eq)]
pub enum Term {
    /// A number.
    Number(i64),
    /// The cell of a name.
    Name(u8),
    /// Null.
    Null,
    /// A text. It is UTF-8 of at most 255 bytes, without control characters; it may be empty.
    Text(Text),
}

/// A term of a sum with its sign.
#[derive(Debug, Drop, PartialEq, Eq)]
pub struct Part {
    /// Whether the term is taken away. The first term of a sum is added.
    pub minus: bool,
    /// The term.
    pub term: Term,
}

/// A condition of an IF.
#[derive(Debug, Drop, PartialEq, Eq)]
pub enum Condition {
    /// Compares two sums. It doesn't hold with null on a side, nor of a text and a number.
    Compare {
        /// How the two are compared.
        op: Operator,
        /// The left sum.
        left: Expr,
        /// The right sum.
        right: Expr,
    },
    /// The cell of a name is null.
    IsNull(u8),
    /// The cell of a name is a number or a text.
    IsNotNull(u8),
}

/// A write that a body asks for.
#[derive(Debug, Drop, PartialEq, Eq)]
pub enum Update {
    /// Sets the cell of a key to a sum. Null removes the cell.
    Set {
        /// The key.
        key: Key,
        /// The sum.
        value: Expr,
    },
    /// Removes the cell of a key.
    Delete {
        /// The key.
        key: Key,
    },
}

/// The parts of a body.
#[derive(Debug, Drop, PartialEq, Eq)]
pub struct BodyParts {
    /// The names, which the other parts mention by their numbers.
    pub lets: Lets,
    /// What is answered.
    pub select: Select,
    /// The conditions under which the updates are made.
    pub guards: Conditions,
    /// The updates.
    pub updates: Updates,
}

impl Let {
    /// An equal LET, in memory of its own.
    pub fn copy(&self) -> Result<Let, OutOfMemory>
        ensures { IfOk result (λ copy. copy ≡ self.now) }
    {
        Ok(Let {
            name: self.name.copy()?,
            key: self.key.copy()?,
        })
    }
}

impl Duplicate for Let {
    fn copy(&self) -> Result<Let, OutOfMemory> {
        Let::copy(self)
    }
}

impl Select {
    /// An equal select, in memory of its own.
    pub fn copy(&self) -> Result<Select, OutOfMemory>
        ensures { IfOk result (λ copy. copy ≡ self.now) }
    {
        match self {
            Select::Nothing => Ok(Select::Nothing),
            Select::Names(names) => Ok(Select::Names(names.copy()?)),
            Select::Get(key) => Ok(Select::Get(key.copy()?)),
        }
    }
}

impl Duplicate for Select {
    fn copy(&self) -> Result<Select, OutOfMemory> {
        Select::copy(self)
    }
}

impl Term {
    /// An equal term, in memory of its own.
    pub fn copy(&self) -> Result<Term, OutOfMemory>
        ensures { IfOk result (λ copy. copy ≡ self.now) }
    {
        match self {
            Term::Number(number) => Ok(Term::Number(*number)),
            Term::Name(name) => Ok(Term::Name(*name)),
            Term::Null => Ok(Term::Null),
            Term::Text(text) => Ok(Term::Text(text.copy()?)),
        }
    }
}

impl Duplicate for Term {
    fn copy(&self) -> Result<Term, OutOfMemory> {
        Term::copy(self)
    }
}

impl Part {
    /// An equal term with its sign, in memory of its own.
    pub fn copy(&self) -> Result<Part, OutOfMemory>
        ensures { IfOk result (λ copy. copy ≡ self.now) }
    {
        Ok(Part {
            minus: self.minus,
            term: self.term.copy()?,
        })
    }
}

impl Duplicate for Part {
    fn copy(&self) -> Result<Part, OutOfMemory> {
        Part::copy(self)
    }
}

impl Condition {
    /// An equal condition, in memory of its own.
    pub fn copy(&self) -> Result<Condition, OutOfMemory>
        ensures { IfOk result (λ copy. copy ≡ self.now) }
    {
        match self {
            Condition::Compare { op, left, right } => Ok(Condition::Compare {
                op: *op,
                left: left.copy()?,
                right: right.copy()?,
            }),
            Condition::IsNull(name) => Ok(Condition::IsNull(*name)),
            Condition::IsNotNull(name) => Ok(Condition::IsNotNull(*name)),
        }
    }
}

impl Duplicate for Condition {
    fn copy(&self) -> Result<Condition, OutOfMemory> {
        Condition::copy(self)
    }
}

impl Update {
    /// An equal update, in memory of its own.
    pub fn copy(&self) -> Result<Update, OutOfMemory>
        ensures { IfOk result (λ copy. copy ≡ self.now) }
    {
        match self {
            Update::Set { key, value } => Ok(Update::Set {
                key: key.copy()?,
                value: value.copy()?,
            }),
            Update::Delete { key } => Ok(Update::Delete { key: key.copy()? }),
        }
    }
}

impl Duplicate for Update {
    fn copy(&self) -> Result<Update, OutOfMemory> {
        Update::copy(self)
    }
}

impl BodyParts {
    /// Equal parts, in memory of their own.
    pub fn copy(&self) -> Result<BodyParts, OutOfMemory>
        ensures { IfOk result (λ copy. copy ≡ self.now) }
    {
        Ok(BodyParts {
            lets: self.lets.copy()?,
            select: self.select.copy()?,
            guards: self.guards.copy()?,
            updates: self.updates.copy()?,
        })
    }
}

impl Duplicate for BodyParts {
    fn copy(&self) -> Result<BodyParts, OutOfMemory> {
        BodyParts::copy(self)
    }
}

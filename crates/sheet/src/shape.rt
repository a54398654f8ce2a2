// The operand shape of each mnemonic: which letters it takes, whether it uses p and q, and what they must name.
ghost use Rattle.std.specs.Prelude.{◌≡◌, bytes_eq, map};
ghost use Rattle.std.specs.List.{find};
ghost use Rattle.sheet.specs.Shapes.{shape_of, name_of, named, NamesAreApart};

use crate::mnemonic::Mnemonic;

// The letters T and T2 that an instruction may have.
#[derive(Clone, Copy, PartialEq, Eq, Debug, Drop)]
pub enum Letters {
    Nothing, // neither is used
    Number, // T is i or r
    Every, // T is any kind
    Ordinal, // T is a, c or i
    Reads, // T is b, c, i or r
    Pair, // T and T2 are i r, r i, c i or i c
}

// What the operands must name.
#[derive(Clone, Copy, PartialEq, Eq, Debug, Drop)]
pub enum Rule {
    Free, // any number
    Constant, // q is a constant of kind T
    Global, // q is a data cell of kind T of procedure 0
    Local, // q is a data cell of kind T of the p-th ancestor, or its result
    Address, // q is a data cell of the p-th ancestor
    Label, // q is in the same procedure, and not its first instruction
    Link, // the p-th ancestor exists
    Call, // q is the first instruction of a procedure other than 0 with p parameters
    Enter, // p is 0 to 40, q the size of the frame
    Function, // only in a procedure with a result
    Procedure, // only in a procedure other than 0 without one
}

#[derive(Clone, Copy, PartialEq, Eq, Debug, Drop)]
pub struct Shape {
    pub letters: Letters,
    pub p: bool,
    pub q: bool,
    pub rule: Rule,
}

const BARE: Shape = Shape {
    letters: Letters::Nothing,
    p: false,
    q: false,
    rule: Rule::Free,
};

const NUMERIC: Shape = Shape {
    letters: Letters::Number,
    ..BARE
};

const TYPED: Shape = Shape {
    letters: Letters::Every,
    ..BARE
};

const CONSTANT: Shape = Shape {
    letters: Letters::Every,
    q: true,
    rule: Rule::Constant,
    ..BARE
};

const GLOBAL: Shape = Shape {
    letters: Letters::Every,
    q: true,
    rule: Rule::Global,
    ..BARE
};

const LOCAL: Shape = Shape {
    letters: Letters::Every,
    p: true,
    q: true,
    rule: Rule::Local,
};

const ADDRESS: Shape = Shape {
    p: true,
    q: true,
    rule: Rule::Address,
    ..BARE
};

const SCALE: Shape = Shape { q: true, ..BARE };

const STEP: Shape = Shape {
    letters: Letters::Ordinal,
    q: true,
    ..BARE
};

const BOUNDS: Shape = Shape {
    p: true,
    q: true,
    ..BARE
};

const LABEL: Shape = Shape {
    q: true,
    rule: Rule::Label,
    ..BARE
};

const READ: Shape = Shape {
    letters: Letters::Reads,
    ..BARE
};

const PAIR: Shape = Shape {
    letters: Letters::Pair,
    ..BARE
};

const LINK: Shape = Shape {
    p: true,
    rule: Rule::Link,
    ..BARE
};

const CALL: Shape = Shape {
    p: true,
    q: true,
    rule: Rule::Call,
    ..BARE
};

const ENTER: Shape = Shape {
    p: true,
    q: true,
    rule: Rule::Enter,
    ..BARE
};

const FUNCTION: Shape = Shape {
    rule: Rule::Function,
    ..BARE
};

const PROCEDURE: Shape = Shape {
    rule: Rule::Procedure,
    ..BARE
};

// A mnemonic, its name padded with blanks at the right, and its operand shape. Named fields would take five lines for each row of the table.
#[derive(Clone, Copy, Drop)]
struct Entry(Mnemonic, [u8; 4], Shape);

// By the number of the mnemonic. A static, since a constant would be laid out anew wherever it is looked up.
static TABLE: [Entry; 38] = [
    Entry(Mnemonic::Add, *b"add ", NUMERIC),
    Entry(Mnemonic::Sub, *b"sub ", NUMERIC),
    Entry(Mnemonic::Mul, *b"mul ", NUMERIC),
    Entry(Mnemonic::Div, *b"div ", NUMERIC),
    Entry(Mnemonic::Neg, *b"neg ", NUMERIC),
    Entry(Mnemonic::And, *b"and ", BARE),
    Entry(Mnemonic::Or, *b"or  ", BARE),
    Entry(Mnemonic::Not, *b"not ", BARE),
    Entry(Mnemonic::Equ, *b"equ ", TYPED),
    Entry(Mnemonic::Neq, *b"neq ", TYPED),
    Entry(Mnemonic::Les, *b"les ", TYPED),
    Entry(Mnemonic::Leq, *b"leq ", TYPED),
    Entry(Mnemonic::Grt, *b"grt ", TYPED),
    Entry(Mnemonic::Geq, *b"geq ", TYPED),
    Entry(Mnemonic::Ldc, *b"ldc ", CONSTANT),
    Entry(Mnemonic::Ldo, *b"ldo ", GLOBAL),
    Entry(Mnemonic::Sro, *b"sro ", GLOBAL),
    Entry(Mnemonic::Lod, *b"lod ", LOCAL),
    Entry(Mnemonic::Str, *b"str ", LOCAL),
    Entry(Mnemonic::Lda, *b"lda ", ADDRESS),
    Entry(Mnemonic::Ind, *b"ind ", TYPED),
    Entry(Mnemonic::Sto, *b"sto ", TYPED),
    Entry(Mnemonic::Dpl, *b"dpl ", TYPED),
    Entry(Mnemonic::Ixa, *b"ixa ", SCALE),
    Entry(Mnemonic::Inc, *b"inc ", STEP),
    Entry(Mnemonic::Dec, *b"dec ", STEP),
    Entry(Mnemonic::Chk, *b"chk ", BOUNDS),
    Entry(Mnemonic::Ujp, *b"ujp ", LABEL),
    Entry(Mnemonic::Fjp, *b"fjp ", LABEL),
    Entry(Mnemonic::In, *b"in  ", READ),
    Entry(Mnemonic::Out, *b"out ", TYPED),
    Entry(Mnemonic::Conv, *b"conv", PAIR),
    Entry(Mnemonic::Mst, *b"mst ", LINK),
    Entry(Mnemonic::Cup, *b"cup ", CALL),
    Entry(Mnemonic::Ent, *b"ent ", ENTER),
    Entry(Mnemonic::Retf, *b"retf", FUNCTION),
    Entry(Mnemonic::Retp, *b"retp", PROCEDURE),
    Entry(Mnemonic::Hlt, *b"hlt ", BARE),
];

impl Mnemonic {
    pub fn shape(self) -> Shape
        ensures { result ≡ shape_of self }
    {
        TABLE[self as usize].2
    }

    // Its name, padded with blanks at the right. No From: the name says which bytes.
    pub fn name(self) -> [u8; 4]
        ensures { result ≡ name_of self }
    {
        TABLE[self as usize].1
    }

    // The mnemonic with this name. No TryFrom: the name says which bytes.
    pub fn by_name(name: [u8; 4]) -> Option<Mnemonic>
        ensures found { result ≡ named name }
        ensures apart { NamesAreApart }
    {
        find_in(&TABLE, name)
    }
}

fn find_in(table: &[Entry], name: [u8; 4]) -> Option<Mnemonic>
    ensures { result ≡ find (λ m. bytes_eq (name_of m) name) (map (λ e. e.0) table.now) }
{
    table
        .iter()
        .map(|entry| entry.0)
        .find(|mnemonic| mnemonic.name() == name)
}

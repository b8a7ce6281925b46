//! The keywords of a script: what each begins, what its parts are, and how many it takes.

ghost use Rattle.std.specs.Prelude.{◌≡◌, map, None, Some};
ghost use Rattle.cml_check.specs.Words.{word_spelling, all_words};
ghost use Rattle.cml_explain.specs.Keywords as spec;

use cml_check::Word;

/// What a keyword begins.
#[derive(Clone, Copy, PartialEq, Eq)]
pub enum Sort {
    /// A function.
    Item,
    /// A branch of an `if`.
    Block,
    Statement,
    Effect,
    /// An expression in parentheses.
    Value,
    /// An expression that stands alone, without parentheses.
    Constant,
}

/// What a form is, by where it stands.
#[derive(Clone, Copy, PartialEq, Eq)]
pub enum Role {
    /// An item of the script.
    Item,
    /// The name of a function, where it is declared.
    FunctionName,
    /// The list of a function's parameters.
    Parameters,
    Parameter,
    Statement,
    /// A branch of an `if`.
    Block,
    /// The name that `let` declares, or that `set` gives a value.
    Variable,
    /// What `let` gives its variable.
    Source,
    /// What `set` gives its variable.
    SetValue,
    Value,
    /// The name of a function that is called.
    Called,
    /// What a list begins with.
    Keyword,
}

/// What a keyword begins, what its parts are, and how many it takes.
#[derive(Clone, Copy)]
pub struct Keyword {
    pub sort: Sort,
    /// What its first part is, its second, and each behind them.
    pub first: Role,
    pub second: Role,
    pub others: Role,
    /// How many parts it needs.
    pub needed: usize,
    /// The most parts that it takes, unless it takes any number.
    pub most: Option<usize>,
}

// It takes so many parts.
fn just(needed: usize, sort: Sort, first: Role, second: Role, others: Role) -> Keyword
    ensures { result ≡ spec.just needed sort first second others }
{
    Keyword {
        sort,
        first,
        second,
        others,
        needed,
        most: Some(needed),
    }
}

// It takes so many parts, or more.
fn at_least(needed: usize, sort: Sort, first: Role, second: Role, others: Role) -> Keyword
    ensures { result ≡ spec.at_least needed sort first second others }
{
    Keyword {
        sort,
        first,
        second,
        others,
        needed,
        most: None,
    }
}

// It takes so many values.
fn on_values(needed: usize, sort: Sort) -> Keyword
    ensures { result ≡ spec.just needed sort Role.Value Role.Value Role.Value }
{
    just(needed, sort, Role::Value, Role::Value, Role::Value)
}

// It takes a function, and the values that it is given.
fn on_function(sort: Sort) -> Keyword
    ensures { result ≡ spec.at_least 1 sort Role.Called Role.Value Role.Value }
{
    at_least(1, sort, Role::Called, Role::Value, Role::Value)
}

/// What there is to know of a keyword.
pub fn keyword_entry(word: Word) -> Keyword
    ensures { result ≡ spec.keyword_entry word }
{
    match word {
        Word::Fn => at_least(
            2,
            Sort::Item,
            Role::FunctionName,
            Role::Parameters,
            Role::Statement,
        ),
        Word::Do => at_least(
            0,
            Sort::Block,
            Role::Statement,
            Role::Statement,
            Role::Statement,
        ),
        Word::Let => just(
            2,
            Sort::Statement,
            Role::Variable,
            Role::Source,
            Role::Source,
        ),
        Word::Set => just(
            2,
            Sort::Statement,
            Role::Variable,
            Role::SetValue,
            Role::SetValue,
        ),
        Word::If => just(3, Sort::Statement, Role::Value, Role::Block, Role::Block),
        Word::Tested(_) => at_least(
            1,
            Sort::Statement,
            Role::Value,
            Role::Statement,
            Role::Statement,
        ),
        Word::Return => on_values(1, Sort::Statement),
        Word::Call | Word::Spawn => on_function(Sort::Effect),
        Word::Choose => at_least(0, Sort::Value, Role::Value, Role::Value, Role::Value),
        Word::Wrap => at_least(2, Sort::Value, Role::Value, Role::Called, Role::Value),
        Word::Guard | Word::WithNack => on_function(Sort::Value),
        Word::MVar => Keyword {
            most: Some(1),
            ..on_values(0, Sort::Effect)
        },
        Word::Constant(_) => on_values(0, Sort::Constant),
        Word::Unary(_) => on_values(1, Sort::Value),
        Word::Binary(_) => on_values(2, Sort::Value),
        Word::Act(_) => on_values(0, Sort::Effect),
        Word::ActOnOne(_) => on_values(1, Sort::Effect),
        Word::ActOnTwo(_) => on_values(2, Sort::Effect),
    }
}

// How each keyword is spelled.
const SPELLINGS: [&str; 57] = [
    "fn",
    "do",
    "let",
    "set",
    "if",
    "while",
    "return",
    "call",
    "spawn",
    "choose",
    "wrap",
    "guard",
    "withnack",
    "mvar",
    "true",
    "false",
    "unit",
    "never",
    "not",
    "fst",
    "snd",
    "always",
    "recv",
    "iget",
    "mtake",
    "mget",
    "mailrecv",
    "portrecv",
    "join",
    "at",
    "after",
    "+",
    "-",
    "*",
    "<",
    "=",
    "pair",
    "send",
    "swap",
    "mswap",
    "chan",
    "swapchan",
    "ivar",
    "mailbox",
    "mchan",
    "exit",
    "yield",
    "self",
    "now",
    "sync",
    "port",
    "copy",
    "print",
    "iput",
    "mput",
    "mail",
    "multicast",
];

/// How the keywords are spelled, each once.
pub fn spellings() -> &'static [&'static str]
    ensures { map (λ spelling. spelling.now) result.now ≡ map word_spelling all_words }
{
    &SPELLINGS
}

// Derivation rows and their rules: which code each rule has, and what it has for premises.
ghost use Rattle.std.specs.Prelude.{◌≡◌, Some};
ghost use Rattle.std.specs.Fmt.{padded as spaced};
ghost use Rattle.rows.specs.Code.{Decodes};
ghost use Rattle.rows.specs.Fields.{padded};
ghost use Rattle.rows.specs.Derivation.{rule_of, premises_of, rule_name};

use crate::code::UnknownCode;
use crate::fields::{Fields, citing};
use std::fmt;

// A row of a derivation, as it comes, with any byte for its rule: a rule used at a syntax row, its premises by their rows, and
// the value that it gives.
#[derive(Clone, Copy, Debug, PartialEq, Eq)]
pub struct DerivationRow {
    // a byte and no `Rule`: any byte may come
    pub rule: u8,
    pub syntax: u16,
    pub premises: Fields,
    pub value: i32,
}

impl DerivationRow {
    // The row of this rule at a syntax row, with the premises at these rows.
    pub fn new(rule: Rule, syntax: u16, premises: &[u16], value: i32) -> DerivationRow
        ensures rule { rule_of result.rule ≡ Some rule }
        ensures syntax { result.syntax ≡ syntax }
        ensures premises { result.premises ≡ padded premises.now }
        ensures value { result.value ≡ value }
    {
        DerivationRow {
            rule: rule.into(),
            syntax,
            premises: citing(premises),
            value,
        }
    }
}

// What a premise derives: a child of the phrase that the rule is about, or that phrase again.
#[derive(Clone, Copy, Debug, PartialEq, Eq)]
pub enum Premise {
    First,
    Second,
    Third,
    Itself,
}

// The rules, each with the code that stands for it.
#[derive(Clone, Copy, Debug, PartialEq, Eq)]
pub enum Rule {
    Num = 1,
    Var = 2,
    Sum = 3,
    Prod = 4,
    True = 5,
    False = 6,
    Less = 7,
    Not = 8,
    And = 9,
    Skip = 10,
    Assgn = 11,
    Seq = 12,
    IfT = 13,
    IfF = 14,
    WhileF = 15,
    WhileT = 16,
}

// The rule that a code stands for, if it stands for one. This and what follows is apart from that of `Kind`: see code.rt.
impl TryFrom<u8> for Rule {
    type Error = UnknownCode;

    ghost try_from_gives = { Decodes rule_of };

    fn try_from(code: u8) -> Result<Rule, UnknownCode> {
        match code {
            1 => Ok(Rule::Num),
            2 => Ok(Rule::Var),
            3 => Ok(Rule::Sum),
            4 => Ok(Rule::Prod),
            5 => Ok(Rule::True),
            6 => Ok(Rule::False),
            7 => Ok(Rule::Less),
            8 => Ok(Rule::Not),
            9 => Ok(Rule::And),
            10 => Ok(Rule::Skip),
            11 => Ok(Rule::Assgn),
            12 => Ok(Rule::Seq),
            13 => Ok(Rule::IfT),
            14 => Ok(Rule::IfF),
            15 => Ok(Rule::WhileF),
            16 => Ok(Rule::WhileT),
            _ => Err(UnknownCode(code)),
        }
    }
}

// The code that stands for a rule.
impl From<Rule> for u8 {
    ghost from_gives = { λ rule code. rule_of code ≡ Some rule };

    fn from(rule: Rule) -> u8 {
        rule as u8
    }
}

impl Rule {
    // The usual name of this rule.
    pub fn name(self) -> &'static str
        ensures { result.now ≡ rule_name self }
    {
        match self {
            Rule::Num => "NUM",
            Rule::Var => "VAR",
            Rule::Sum => "SUM",
            Rule::Prod => "PROD",
            Rule::True => "TRUE",
            Rule::False => "FALSE",
            Rule::Less => "LESS",
            Rule::Not => "NOT",
            Rule::And => "AND",
            Rule::Skip => "SKIP",
            Rule::Assgn => "ASSGN",
            Rule::Seq => "SEQ",
            Rule::IfT => "IF-T",
            Rule::IfF => "IF-F",
            Rule::WhileF => "WHILE-F",
            Rule::WhileT => "WHILE-T",
        }
    }

    // The premises, first to last.
    pub fn premises(self) -> &'static [Premise]
        ensures { result.now ≡ premises_of self }
    {
        match self {
            Rule::Num | Rule::Var | Rule::True | Rule::False | Rule::Skip => &[],
            Rule::Not | Rule::Assgn | Rule::WhileF => &[Premise::First],
            Rule::Sum | Rule::Prod | Rule::Less | Rule::And | Rule::Seq | Rule::IfT => &[
                Premise::First,
                Premise::Second,
            ],
            Rule::IfF => &[Premise::First, Premise::Third],
            Rule::WhileT => &[Premise::First, Premise::Second, Premise::Itself],
        }
    }
}

impl fmt::Display for Rule {
    ghost output = { λ rule. Some (rule_name rule) };

    ghost styled_output = { λ rule spec. Some (spaced spec (rule_name rule)) };

    fn fmt<W: fmt::Write>(&self, f: &mut fmt::Formatter<W>) -> fmt::Result {
        f.pad(self.name())
    }
}

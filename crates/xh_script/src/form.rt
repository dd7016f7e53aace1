//! The table of the language: a row for each form of line.
ghost use Rattle.std.specs.Prelude.{◌≡◌, ◌≤◌, ◌+◌, length, true};
ghost use Rattle.xh_script.specs.Forms.{just, and_more, form_among, form_text, shape, is_head, sort_at, has_count};
ghost use Rattle.xh_script.specs.declared.limits.TheConstants.{MAX_WORDS};

use crate::FaultKind;
use crate::limits::{MAX_GIVEN, MAX_LEN, MAX_NUMBER, MAX_TAG};
use std::marker::Model;
use xh_model::limits::{MAX_BLOCKS, MAX_BUDGET, MAX_ROWS};

/// What a word of a line has to be.
#[derive(Clone, Copy)]
pub enum Sort {
    /// The name of a process.
    Process,
    /// The name of a block of the process that was named last.
    Block,
    /// The name of a contract.
    Contract,
    /// A number in this range.
    Number { least: u32, most: u32 },
    /// 1 to 32 bytes in hexadecimal digits.
    Bytes,
    /// A row of a contract.
    Row,
}

/// The forms of lines: `contract`, `process` and `wire` by their first word, all others by the verb
/// behind the name of a process.
#[derive(Clone, Copy, Debug)]
pub enum Form {
    Contract,
    Process,
    Wire,
    Open,
    Alloc,
    Split,
    Read,
    Write,
    Give,
    Take,
    Await,
    Free,
    Close,
    Exit,
    Kill,
    Glance,
    Again,
}

/// The words of a form: these in order, and then `least` to `most` words of the sort `more`. The
/// form's own word does not count, and the process ahead of a verb is the first word.
#[derive(Drop)]
pub(crate) struct FormShape {
    words: &'static [Sort],
    more: Sort,
    least: usize,
    most: usize,
}

impl Model for FormShape {
    ghost use Rattle.xh_script.specs.Forms.{FormShape};

    ghost Value = { FormShape };

    ghost view = { λ s. record { words = s.words.now; more = s.more; least = s.least; most = s.most } };
}

const PROCESS: Sort = Sort::Process;

const BLOCK: Sort = Sort::Block;

const CONTRACT: Sort = Sort::Contract;

const BYTES: Sort = Sort::Bytes;

const NUMBER: Sort = Sort::Number {
    least: 0,
    most: MAX_NUMBER,
};

const TAG: Sort = Sort::Number {
    least: 0,
    most: MAX_TAG,
};

const LEN: Sort = Sort::Number {
    least: 1,
    most: MAX_LEN,
};

const BUDGET: Sort = Sort::Number {
    least: 1,
    most: MAX_BUDGET as u32,
};

/// The forms whose lines begin with their own word.
pub(crate) const HEADS: &[Form] = &[Form::Contract, Form::Process, Form::Wire];

/// The forms whose lines begin with a process, and their own word, a verb, behind it.
pub(crate) const VERBS: &[Form] = &[
    Form::Open,
    Form::Alloc,
    Form::Split,
    Form::Read,
    Form::Write,
    Form::Give,
    Form::Take,
    Form::Await,
    Form::Free,
    Form::Close,
    Form::Exit,
    Form::Kill,
    Form::Glance,
    Form::Again,
];

/// The first of these forms whose own word this is.
pub(crate) fn form_among(forms: &[Form], word: &[u8]) -> Result<Form, FaultKind>
    ensures { result ≡ form_among forms.now word.now }
{
    for form in forms {
        if word == form.text() {
            return Ok(*form);
        }
    }
    Err(FaultKind::BadWord)
}

/// These words and no more.
fn just(words: &'static [Sort]) -> FormShape
    ensures { result ≡ just words.now }
{
    and_more(words, BLOCK, 0, 0)
}

/// These words, and then some more.
fn and_more(words: &'static [Sort], more: Sort, least: usize, most: usize) -> FormShape
    ensures { result ≡ and_more words.now more least most }
{
    FormShape {
        words,
        more,
        least,
        most,
    }
}

impl Form {
    /// Its row of the table.
    #[tactic(auto, unfolding(crate::specs::Forms::shape))]
    pub(crate) fn shape(self) -> FormShape
        ensures is { result ≡ shape self }
        ensures fits { (length (shape self).words + (shape self).most ≤ MAX_WORDS) × ((shape self).least ≤ (shape self).most) }
    {
        match self {
            Form::Contract => and_more(&[CONTRACT], Sort::Row, 1, MAX_ROWS),
            Form::Process => just(&[PROCESS]),
            Form::Wire => and_more(&[PROCESS, BLOCK, PROCESS, BLOCK, NUMBER], CONTRACT, 0, 1),
            Form::Open => and_more(&[PROCESS, BLOCK, BLOCK, NUMBER], CONTRACT, 0, 1),
            Form::Alloc => just(&[PROCESS, BLOCK, NUMBER, NUMBER]),
            Form::Split => just(&[PROCESS, BLOCK, NUMBER, BLOCK]),
            Form::Read => just(&[PROCESS, BLOCK, NUMBER, LEN]),
            Form::Write => just(&[PROCESS, BLOCK, NUMBER, BYTES]),
            Form::Give => and_more(&[PROCESS, BLOCK, TAG], BLOCK, 0, MAX_GIVEN),
            Form::Take | Form::Await => and_more(&[PROCESS, BLOCK], BLOCK, 0, MAX_BLOCKS),
            Form::Free | Form::Close => just(&[PROCESS, BLOCK]),
            Form::Exit => and_more(&[PROCESS], BUDGET, 0, 1),
            Form::Kill => and_more(&[PROCESS, PROCESS], BUDGET, 0, 1),
            Form::Glance => just(&[PROCESS, PROCESS]),
            Form::Again => just(&[PROCESS]),
        }
    }

    /// Whether its lines stand ahead of all others.
    pub fn is_head(self) -> bool
        ensures { result ≡ is_head self }
    {
        matches!(self, Form::Contract | Form::Process | Form::Wire)
    }

    /// The form's own word.
    fn text(self) -> &'static [u8]
        ensures { result.now ≡ form_text self }
    {
        match self {
            Form::Contract => b"contract",
            Form::Process => b"process",
            Form::Wire => b"wire",
            Form::Open => b"open",
            Form::Alloc => b"alloc",
            Form::Split => b"split",
            Form::Read => b"read",
            Form::Write => b"write",
            Form::Give => b"give",
            Form::Take => b"take",
            Form::Await => b"await",
            Form::Free => b"free",
            Form::Close => b"close",
            Form::Exit => b"exit",
            Form::Kill => b"kill",
            Form::Glance => b"glance",
            Form::Again => b"again",
        }
    }
}

impl FormShape {
    /// What the word at this place has to be.
    pub(crate) fn sort(&self, i: usize) -> Sort
        ensures { result ≡ sort_at self.now i }
    {
        match self.words.get(i) {
            Some(sort) => *sort,
            None => self.more,
        }
    }

    /// Whether a line of the form may have so many words.
    pub(crate) fn has_count(&self, count: usize) -> bool
        requires { (length self.now.words + self.now.most ≤ MAX_WORDS) × (self.now.least ≤ self.now.most) }
        ensures is { result ≡ has_count self.now count }
        ensures within { result ≡ true → count ≤ MAX_WORDS }
    {
        self.words.len() + self.least <= count && count <= self.words.len() + self.most
    }
}

// Lines that are read word by word.
ghost use Rattle.oe_window.specs.Chunks.{IsSide};

use crate::cells::{cell_of, cells_of, frac_of, fraction_of};
use crate::words::{bytes_of, number_of, numbers_of};
use crate::{Answers, Fault};
use oe_cell::{Cell, Frac};
use oe_window::{Span, Window};
use std::alloc::Global;
use std::str::FromStr;

/// What is left of a line, and the first fault that was noted of it.
///
/// A word that does not spell what is read of it is noted, and read as zero, null or nothing. So what reads a line goes on
/// without a question at each word, and a program asks for a fault but once behind the line.
#[derive(Drop)]
pub struct Line<'a> {
    alloc: Global,
    rest: &'a str,
    fault: Option<Fault>,
}

impl<'a> Line<'a> {
    /// All of a line, and no fault.
    pub fn new(alloc: Global, text: &'a str) -> Line<'a> {
        Line {
            alloc,
            rest: text,
            fault: None,
        }
    }

    /// What lists are read into.
    pub fn alloc(&self) -> Global {
        self.alloc
    }

    /// Notes a fault, unless one was noted before.
    pub fn note(&mut self, fault: Fault) {
        if self.fault.is_none() {
            self.fault = Some(fault);
        }
    }

    /// Notes the fault that an outcome is, if it is one.
    pub fn settle(&mut self, outcome: Result<(), Fault>) {
        if let Err(fault) = outcome {
            self.note(fault);
        }
    }

    /// Notes the first fault that was noted of the line among answers.
    pub fn report(&self, answers: &mut Answers) {
        if let Some(fault) = self.fault {
            answers.note(fault);
        }
    }

    /// The value of an outcome, or another in place of a fault, which is noted.
    pub fn value_or<T: Drop>(&mut self, outcome: Result<T, Fault>, other: T) -> T {
        match outcome {
            Ok(value) => value,
            Err(fault) => {
                self.note(fault);
                other
            }
        }
    }

    /// What stands before the first such separator, or all that is left, which is taken.
    pub fn before(&mut self, separator: &str) -> &'a str {
        match self.rest.split_once(separator) {
            Some((part, rest)) => {
                self.rest = rest;
                part
            }
            None => self.rest(),
        }
    }

    /// All that is left, which is taken.
    pub fn rest(&mut self) -> &'a str {
        let rest = self.rest;
        self.rest = "";
        rest
    }

    /// The next word, which is taken with the blank behind it.
    pub fn word(&mut self) -> &'a str {
        self.before(" ")
    }

    /// Whether the next word is this one, which is taken then.
    pub fn takes(&mut self, word: &str) -> bool {
        let (next, rest) = self.rest.split_once(' ').unwrap_or((self.rest, ""));
        if next != word {
            return false;
        }
        self.rest = rest;
        true
    }

    /// Takes the next word, which is this one. Another one is noted.
    pub fn pass(&mut self, word: &str) {
        if !self.takes(word) {
            self.note(Fault::Line);
        }
    }

    /// The number that the next word spells.
    pub fn number<T: FromStr + Default + Drop>(&mut self) -> T
    where
        T::Err: Drop,
    {
        self.number_before(" ")
    }

    /// The number before the first such separator.
    pub fn number_before<T: FromStr + Default + Drop>(&mut self, separator: &str) -> T
    where
        T::Err: Drop,
    {
        let part = self.before(separator);
        self.value_or(number_of(part), T::default())
    }

    /// The numbers that the next word spells.
    pub fn numbers<T: FromStr + Drop>(&mut self) -> Vec<T>
    where
        T::Err: Drop,
    {
        let word = self.word();
        self.value_or(numbers_of(self.alloc, word), Vec::new(self.alloc))
    }

    /// The bytes that the next word spells.
    pub fn bytes(&mut self) -> Vec<u8> {
        let word = self.word();
        self.value_or(bytes_of(self.alloc, word), Vec::new(self.alloc))
    }

    /// The cell that the next word spells.
    pub fn cell(&mut self) -> Cell {
        let word = self.word();
        self.value_or(cell_of(word), Cell::Empty)
    }

    /// The cells that the next word spells.
    pub fn cells(&mut self) -> Vec<Cell> {
        let word = self.word();
        self.value_or(cells_of(self.alloc, word), Vec::new(self.alloc))
    }

    /// The whole number or fraction that the next word spells.
    pub fn frac(&mut self) -> Frac {
        let word = self.word();
        self.value_or(frac_of(word), Frac::whole(0))
    }

    /// The number of a numerator and a denominator, `None` where they are refused.
    pub fn fraction(&mut self) -> Option<Frac> {
        let word = self.word();
        self.value_or(fraction_of(word), None)
    }

    /// The window that the next four words spell.
    pub fn window(&mut self) -> Window {
        let t = self.span();
        let bands = self.span();
        let y = self.span();
        let x = self.span();
        Window { t, bands, y, x }
    }

    fn span(&mut self) -> Span {
        let from = self.number_before("..");
        let to = self.number();
        Span { from, to }
    }

    /// The side of chunks that the next word spells, from 1 to 4096.
    pub fn side(&mut self) -> u32
        ensures { IsSide result }
    {
        let side = self.number();
        if side >= 1 && side <= 4096 {
            side
        } else {
            self.note(Fault::Line);
            1
        }
    }
}

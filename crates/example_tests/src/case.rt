//! What a case gives the program, and what the program must write and end with.
use bench_core::Limits;
use std::alloc::Global;

/// A case of a file. As the file is read, one value stands for each of its cases in turn.
#[derive(Drop)]
pub struct Case {
    pub heap: Global,
    /// The number of the line with which the case begins in its file; 0 as long as no case has begun.
    pub line: u64,
    /// The words that the program gets, without its name.
    pub words: Vec<String>,
    pub input: Vec<u8>,
    /// Whether the case has an input of its own, and not that of the case before.
    pub is_own: bool,
    /// The part of the input that the next replacement replaces.
    pub part: String,
    /// The input with parts replaced, if any were.
    pub altered: Option<Vec<u8>>,
    /// How many bytes of the input the program gets at most.
    pub front: usize,
    /// Whether a read fails once the program has read all of the input that it gets.
    pub fails: bool,
    /// How many bytes the output takes before a write fails.
    pub room: usize,
    pub limits: Limits,
    /// Whether the case tells the program that its input is a terminal.
    pub terminal: bool,
    /// Whether the output is only the beginning of what the program may print.
    pub begins: bool,
    pub output: Vec<u8>,
    pub errors: Vec<u8>,
    pub status: u8,
}

impl Case {
    /// What stands for a case before the first one of a file begins: line 0, no words, no input, and the usual limits.
    pub fn new(heap: Global) -> Case {
        Case {
            heap,
            line: 0,
            words: Vec::new(heap),
            input: Vec::new(heap),
            is_own: false,
            part: String::new(heap),
            altered: None,
            front: usize::MAX,
            fails: false,
            room: usize::MAX,
            limits: Limits::usual(),
            terminal: false,
            begins: false,
            output: Vec::new(heap),
            errors: Vec::new(heap),
            status: 0,
        }
    }

    /// Makes this the case that begins at `line`. It keeps the input of the case before, with nothing replaced, and the
    /// part to be replaced, until the case gets its own.
    pub fn begin(&mut self, line: u64) {
        self.line = line;
        self.words.clear();
        self.is_own = false;
        // form: an assignment would drop the old value field by field
        drop(self.altered.take());
        self.front = usize::MAX;
        self.fails = false;
        self.room = usize::MAX;
        self.limits = Limits::usual();
        self.terminal = false;
        self.begins = false;
        self.output.clear();
        self.errors.clear();
        self.status = 0;
    }

    /// The input, with parts replaced if any were.
    pub fn whole_input(&self) -> &[u8] {
        match &self.altered {
            Some(altered) => altered,
            None => &self.input,
        }
    }

    /// The bytes that the program gets to read.
    pub fn given(&self) -> &[u8] {
        let whole = self.whole_input();
        whole.get(..self.front).unwrap_or(whole)
    }

    /// The case's own input, to which the caller can append. The first call after `begin` clears the input of the case
    /// before.
    pub fn own_input(&mut self) -> &mut Vec<u8> {
        if !self.is_own {
            self.is_own = true;
            self.input.clear();
        }
        &mut self.input
    }
}

//! What the lines of a script work on. Where nothing else is said a line answers `Ok`, or `refused` and the error's
//! text; one that has nothing to answer has `none`.
//!
//! - `find NAME`: the kind and position of a capability, or `none`
//! - `name-of KIND POSITION`: the name there, or `none`
//! - `table KIND POSITION NAME..`: the position after these names, which are there one after another
//! - `named KIND`: how many positions have a name
//! - `are-names TEXT`, `first-name TEXT`: `yes` or `no`; the first alternative
//! - `entry NAMES`: makes an entry, which the next lines are about
//! - `shown`: the entry: its names and what is present (`answers.rt`)
//! - `is-bundled`: whether the entry is the bundled one, name by name and position by position
//! - `names`, `unnamed`: its names; how many present capabilities have no name
//! - `flag N`, `number N`, `text N`: what it has at a position
//! - `set-flag N yes`, `set-number N 80`, `set-text N TEXT`: sets that; without a last word it becomes absent
//! - `colours-first`: the entry then has colours in place of the attributes that they exclude
//! - `copy`: a copy of the entry takes its place
//! - `print`: its source text, and how many capabilities that leaves out
//! - `source TEXT`: how many entries a source has; it is what the next lines are about
//! - `chained COUNT USES LAST`: the same of a source of COUNT entries, `e0` and so on, each of which uses the next one
//!   USES times; the last has the field LAST
//! - `source-cuts TEXT`: what each beginning of a source is read as, after the length from which on it is so
//! - `listed`, `notes`, `take-notes`: the first name of each entry; the notes on it; the same, and the source is gone
//! - `resolve NAME`: the resolved entry, which is then the entry
//! - `resolver NAME..`: each resolved entry or refusal, by one resolver
//! - `string TEXT`, `decimal TEXT`: what a string or a number in a source means
//! - `encode`: the compiled file of the entry, which is then the file
//! - `encode-named NAMES`: the compiled file of the entry with these names in place of its own
//! - `file BYTES`: these bytes are the file then; answers how many there are
//! - `decode`: how many bytes follow, and the entry of the file, which is then the entry
//! - `decode-wide`: how many bytes follow a file with 32-bit numbers, how many numbers are clamped, and its entry
//! - `read-entry`: the entry of a file in either format
//! - `changed INDEX BYTE..`: as `decode`, of the file with bytes changed
//! - `file-cuts`, `wide-cuts`: how many beginnings of the file are `truncated`; the same of one with 32-bit numbers
//! - `file-bytes BYTE..`: how many files are read or refused where each byte in turn is set to each of these
//! - `compile SOURCE`: each `file PATH BYTES`, each `size NAME BYTES`, each `note LINE CAUSE NAME`
//! - `compiler STEP..`: what the entries of the source are compiled to, one after another by one compiler: at each
//!   `next` a name, its paths and the bytes of their file, or `end`; `restart` goes back before the first
//! - `store PATH BYTES ..`: names are looked up in these files then, and no others
//! - `paths NAME VARIABLE=VALUE..`: the paths at which the entry of a name is looked for, where these variables are
//!   set
//! - `look-up NAME VARIABLE=VALUE..`: the entry that is found there
//! - `whole SOURCE`: the compiled file of a source's first entry with all that `tic -x` keeps, which is then the file,
//!   and what is still doubtful in the source, LINE CAUSE NAME
//! - `decode-whole`: the whole entry of the file: its entry, `great N VALUE` for each number above 32,767, and `flag
//!   NAME`, `number NAME VALUE` and `text NAME TEXT` for each extended capability
//! - `encode-whole`, `print-whole`: the compiled file of that whole entry; its source text, and how many capabilities
//!   that leaves out
//! - `is-extended-name TEXT`: whether an extended capability can have this name
//! - `list`: the text of the file, how many capabilities that leaves out, and how many bytes follow
//! - `padding TEXT`: the text without padding
//! - `vars`: sets the static variables to 0
//! - `program TEXT PARAMETER..`: what the program writes, as many bytes as `length` says
//! - `measure TEXT`: the bound and the depth of a program
//! - `read-program TEXT`: whether a text is a program
//! - `input COUNT EACH [BEFORE FAULT]`: how many bytes are read of a reader that gives EACH at a time, of which the
//!   read after BEFORE others is `interrupted` or `broken`
//! - `input-of TEXT`: what is read of a reader of these bytes

use crate::answers::{add_entry_if_any, add_notes};
use crate::database::{answer_of_database, store};
use crate::entries::answer_of_entry;
use crate::files::{
    answer_of_changes, answer_of_file, answer_of_writing, decode_changed, take_file,
};
use crate::inputs::answer_of_input;
use crate::programs::{answer_of_programs, run};
use crate::sources::{add_list, answer_of_meaning, answer_of_source, resolve};
use crate::table::answer_of_table;
use crate::wholes::answer_of_whole;
use check_harness::answers::{add_name, add_text, add_word};
use check_harness::buffers::Buffer;
use check_harness::checking::Subject;
use check_harness::troubles::Trouble;
use check_harness::words::{CallLine, Words};
use std::alloc::Global;
use ti_caps::Entry;
use ti_database::MemoryFiles;
use ti_param::Vars;
use ti_source::Source;

/// What earlier lines have made.
#[derive(Drop)]
pub struct TerminfoSubject {
    alloc: Global,
    // The entry that was made, resolved or decoded last.
    entry: Option<Entry>,
    // The source that was read last.
    source: Option<Source>,
    // The bytes of a compiled file.
    file: Vec<u8>,
    // The files in which names are looked up.
    store: MemoryFiles,
    // The static variables of programs.
    vars: Vars,
}

impl Subject for TerminfoSubject {
    fn new(alloc: Global) -> TerminfoSubject {
        TerminfoSubject {
            alloc,
            entry: None,
            source: None,
            file: Vec::new(alloc),
            store: MemoryFiles(Vec::new(alloc)),
            vars: Vars::new(),
        }
    }

    fn answer(&mut self, words: &mut Words<'_>, got: &mut Buffer) {
        let mut line = CallLine::new(self.alloc, *words, got.take(self.alloc));
        if !self.is_answered(&mut line) && !answer_of_values(&mut line) {
            line.words.fail(Trouble::Bad("no such line"));
        }
        if line.got.bytes().is_empty() {
            add_word("none", &mut line.got);
        }
        *words = line.words;
        *got = line.got;
    }

    fn dump(&self, bytes: &mut Buffer) {
        add_entry_if_any(&self.entry, bytes);
        if let Some(source) = &self.source {
            add_list(source, bytes);
            add_notes(source.notes(), bytes);
        }
        add_text(&self.file, bytes);
        for (path, file) in &self.store.0 {
            add_text(&path.0, bytes);
            add_text(&file.0, bytes);
        }
        add_name(&self.vars, bytes);
    }
}

impl TerminfoSubject {
    // Makes the call of a line that goes on with what is there. Tells whether a line is one of them.
    fn is_answered(&mut self, line: &mut CallLine<'_>) -> bool {
        match line.name {
            "resolve" => resolve(&self.source, &mut self.entry, line),
            "file" => take_file(&mut self.file, line),
            "decode" | "changed" => decode_changed(&self.file, &mut self.entry, line),
            "store" => store(&mut self.store, line),
            "program" => run(&mut self.vars, line),
            "vars" => {
                self.vars = Vars::new();
                add_word("Ok", &mut line.got);
            }
            _ => return self.is_answered_of_one(line),
        }
        true
    }

    // Makes the call of a line about the entry, the source, the file or the files in which names are looked up.
    fn is_answered_of_one(&mut self, line: &mut CallLine<'_>) -> bool {
        answer_of_entry(&mut self.entry, line)
            || answer_of_source(&mut self.source, line)
            || answer_of_writing(&self.entry, &mut self.file, line)
            || answer_of_file(&self.file, line)
            || answer_of_changes(&self.file, line)
            || answer_of_whole(&mut self.file, line)
            || answer_of_database(&self.store, line)
    }
}

// Makes the call of a line that leaves all as it is. Tells whether a line is one of them.
fn answer_of_values(line: &mut CallLine<'_>) -> bool {
    answer_of_table(line)
        || answer_of_meaning(line)
        || answer_of_programs(line)
        || answer_of_input(line)
}

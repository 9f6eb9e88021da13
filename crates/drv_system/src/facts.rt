//! The first answers to the questions of a call.

// In clauses: `Asks` says that a call only asked: it added new questions to the journal, and their
// answers to the table.
ghost use Rattle.drv_system.specs.Asking.{Asks, Consults};
ghost use Rattle.drv_system.specs.Facts.{first_kind, first_read, first_variable, kind_of, learn};
ghost use Rattle.drv_system.specs.Facts.{no_facts, read_of, variable_of, with_value};
ghost use Rattle.drv_system.specs.declared.event.Event.{Event};
ghost use Rattle.drv_system.specs.declared.event.Event.TheVariants as event;
ghost use Rattle.std.specs.Option.{option_copied};
ghost use Rattle.std.specs.Prelude.{◌≡◌, IfOk, IsSome, List, OnErr, OnOk, Some, ℕ};

use crate::answer_map::AnswerMap;
use crate::{PathKind, ReadAnswer, System};
use drv_words::Word;
use indexmap::IndexMap;
use std::alloc::{AllocError, Global};
use std::marker::Model;

/// The first answers to the questions of a call, by path or name.
#[derive(Drop)]
pub struct FactTable {
    reads: AnswerMap<ReadAnswer>,
    /// A search asks for many: a table by hash finds them faster than a tree.
    kinds: IndexMap<Word, PathKind>,
    variables: AnswerMap<Option<Word>>,
}

impl Model for FactTable {
    ghost use Rattle.drv_system.specs.Code.Ordered.{SameAnswers, in_order};
    ghost use Rattle.drv_system.specs.Facts.{Facts};

    ghost Value = { Facts };

    ghost invariant = { λ t. SameAnswers t.kinds.entries };

    ghost view = { λ t. record {
      reads = t.reads;
      kinds = in_order t.kinds.entries;
      variables = t.variables;
    } };
}

impl FactTable {
    /// The table without answers.
    pub fn new(alloc: Global) -> FactTable
        ensures { result ≡ no_facts }
    {
        FactTable {
            reads: AnswerMap::new(alloc),
            kinds: IndexMap::new(alloc),
            variables: AnswerMap::new(alloc),
        }
    }

    /// The kind of a path: the table's answer, or else the system's, which the table keeps.
    pub fn kind<S: System>(&mut self, sys: &mut S, path: &Word) -> Result<PathKind, AllocError>
        ensures asks { Asks (S.events sys.old) (S.events sys.new) self.old self.new }
        ensures consults { Consults (S.events sys.old) (S.events sys.new) self.old self.new
            (event.Kind path.now) (kind_of self.old path.now) result (kind_of self.new path.now) }
        ensures known { IfOk result (λ kind. kind_of self.new path.now ≡ Some kind) }
    {
        if let Some(kind) = self.kinds.get(path) {
            return Ok(*kind);
        }
        // With a copy of the path and room for it, keeping the answer can't fail.
        let key = path.clone()?;
        self.kinds.reserve(1)?;
        let kind = sys.kind(path)?;
        self.kinds.insert(key, kind)?;
        Ok(kind)
    }

    /// Asks for the bytes of a file, unless the table knows them. `read_answer` then returns them.
    pub fn read<S: System>(&mut self, sys: &mut S, path: &Word) -> Result<(), AllocError>
        ensures asks { Asks (S.events sys.old) (S.events sys.new) self.old self.new }
        ensures consults { Consults (S.events sys.old) (S.events sys.new) self.old self.new
            (event.Read path.now) (read_of self.old path.now) result (read_of self.new path.now) }
        ensures known { OnOk result (IsSome (read_of self.new path.now)) }
    {
        if self.reads.has(path) {
            return Ok(());
        }
        self.reads.make_place(path, ReadAnswer::Missing)?;
        match sys.read_file(path) {
            Ok(answer) => {
                self.reads.fill_place(path, answer);
                Ok(())
            }
            Err(e) => {
                self.reads.clear_place(path);
                Err(e)
            }
        }
    }

    /// The table's answer for the bytes of a file.
    pub fn read_answer(&self, path: &Word) -> &ReadAnswer
        requires { IsSome (read_of self.now path.now) }
        ensures { read_of self.now path.now ≡ Some result.now }
    {
        self.reads.get(path).unwrap()
    }

    /// Asks for the value of a variable, unless the table knows it. `variable_answer` then returns
    /// it.
    pub fn variable<S: System>(&mut self, sys: &mut S, name: &Word) -> Result<(), AllocError>
        ensures asks { Asks (S.events sys.old) (S.events sys.new) self.old self.new }
        ensures consults { Consults (S.events sys.old) (S.events sys.new) self.old self.new
            (event.Variable name.now) (variable_of self.old name.now) result
            (variable_of self.new name.now) }
        ensures known { OnOk result (IsSome (variable_of self.new name.now)) }
    {
        if self.variables.has(name) {
            return Ok(());
        }
        self.variables.make_place(name, None)?;
        match sys.variable(name) {
            Ok(value) => {
                self.variables.fill_place(name, value);
                Ok(())
            }
            Err(e) => {
                self.variables.clear_place(name);
                Err(e)
            }
        }
    }

    /// Puts a value of a variable into the table, in place of any that it has. The system is not
    /// asked.
    pub fn put_variable(&mut self, name: &Word, value: Option<Word>) -> Result<(), AllocError>
        ensures ok { OnOk result (self.new ≡ with_value self.old name.now value) }
        ensures err { OnErr result (self.new ≡ self.old) }
    {
        self.variables.make_place(name, value)
    }

    /// The table's value of a variable, or `None` if that is unset.
    pub fn variable_answer(&self, name: &Word) -> Option<&Word>
        requires { IsSome (variable_of self.now name.now) }
        ensures { variable_of self.now name.now ≡ Some (option_copied result) }
    {
        self.variables.get(name).unwrap().as_ref()
    }
}

/// A law: for each path and each name, the facts of a journal are its first answers.
pub fn first_answers_law()
    ensures reads { (events : List Event) (path : List ℕ)
        → read_of (learn no_facts events) path ≡ first_read path events }
    ensures kinds { (events : List Event) (path : List ℕ)
        → kind_of (learn no_facts events) path ≡ first_kind path events }
    ensures variables { (events : List Event) (name : List ℕ)
        → variable_of (learn no_facts events) name ≡ first_variable name events }
{}

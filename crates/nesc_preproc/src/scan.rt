//! The scan of open files.

ghost use Rattle.std.specs.Prelude.{◌≡◌, ◌+◌, ◌∷◌, ◌<◌, ◌≤◌, [], true, false, length, Err, OnOk};
ghost use Rattle.nm_base.specs.declared.limit.TheConstants.{MAX_TOKENS};
ghost use Rattle.nesc_preproc.specs.Lines.{begins_directive};
ghost use Rattle.nesc_preproc.specs.Sources.{World, IsLexing};
ghost use Rattle.nesc_preproc.specs.Obeyed.{max_open};
ghost use Rattle.nesc_preproc.specs.Kept.{Allows, IsNoReadFault, IsTold};
ghost use Rattle.nesc_preproc.specs.Answers.{Counts};
ghost use Rattle.nesc_preproc.specs.Scan.{Leads, LeadsBehind, RunsTo, Smaller, items_in, outer_conditionals, outer_items, outer_size, size_of, size_with};

use crate::conditional::{Conditional, is_live, outermost};
use crate::context::{Context, malformed};
use crate::known::KnownFiles;
use crate::lines::{begins_directive, take_line, take_run};
use crate::obey::obey;
use nesc_macros::{Macros, expand_list};
use nm_base::{Fault, Files, NoMemory, Token};
use std::alloc::Global;
use std::collections::VecDeque;
use std::mem;

/// An open file around the innermost one: the tokens that are left of it, and its open conditionals.
#[derive(Debug, Drop)]
pub(crate) struct OpenFile {
    pub rest: VecDeque<Token>,
    pub conditionals: VecDeque<Conditional>,
}

/// A scan: what directives change, the tokens that are left of the innermost file, the files around it, innermost first, and
/// the tokens that were given.
#[derive(Debug, Drop)]
pub(crate) struct Scan {
    pub context: Context,
    pub rest: VecDeque<Token>,
    pub outer: VecDeque<OpenFile>,
    pub out: Vec<Token>,
}

impl Scan {
    /// At the beginning of a file.
    pub fn new(alloc: Global, known: KnownFiles, tokens: Vec<Token>) -> Scan
        ensures known { result.context.known ≡ known }
        ensures macros { result.context.macros ≡ [] }
        ensures conditionals { result.context.conditionals.items ≡ [] }
        ensures rest { result.rest.items ≡ tokens.items }
        ensures outer { result.outer.items ≡ [] }
        ensures out { result.out.items ≡ [] }
    {
        Scan {
            context: Context {
                known,
                macros: Macros::new(alloc),
                conditionals: VecDeque::new(alloc),
            },
            rest: VecDeque::from_vec(tokens),
            outer: VecDeque::new(alloc),
            out: Vec::new(alloc),
        }
    }

    // Opens a header.
    fn open(&mut self, alloc: Global, header: Vec<Token>) -> Result<(), NoMemory>
        ensures outer { OnOk result (outer_items self.new.outer.items ≡ items_in self.old) }
        ensures files { OnOk result (outer_conditionals self.new.outer.items ≡ self.old.context.conditionals.items ∷ outer_conditionals self.old.outer.items) }
        ensures rest { OnOk result (self.new.rest.items ≡ header.items) }
        ensures conditionals { OnOk result (self.new.context.conditionals.items ≡ []) }
        ensures known { self.new.context.known ≡ self.old.context.known }
        ensures macros { self.new.context.macros ≡ self.old.context.macros }
        ensures out { self.new.out ≡ self.old.out }
        ensures depth { OnOk result (length self.new.outer.items ≡ length self.old.outer.items + 1) }
        ensures size { OnOk result (outer_size self.new.outer.items ≡ size_of self.old) }
    {
        let rest = mem::replace(&mut self.rest, VecDeque::from_vec(header));
        let conditionals = mem::replace(&mut self.context.conditionals, VecDeque::new(alloc));
        self.outer.push_front(OpenFile { rest, conditionals })?;
        Ok(())
    }

    // Obeys the directive behind the `#` at this place.
    #[tactic(auto, using(crate::proofs::Opening::no_read_fault))]
    fn obey_line<F: Files>(
        &mut self,
        alloc: Global,
        files: &mut F,
        hash: Token,
    ) -> Result<(), Fault>
        requires directive { begins_directive hash ≡ true }
        requires within { self.old.context.known.tokens ≤ MAX_TOKENS }
        requires depth { length self.old.outer.items < max_open }
        ensures outside { Counts result (F.seen files.old) (F.seen files.new) }
        ensures leads { (world : World) → IsTold (F.seen files.old).texts world → IsLexing world.lexed → Allows result world.broken (length self.new.context.known.files.texts) → LeadsBehind result world hash self.old self.new }
        ensures numbers { OnOk result (length self.old.context.known.files.texts ≤ length self.new.context.known.files.texts) }
        ensures unread { result ≡ Err Fault.ReadFault → length self.old.context.known.files.texts ≤ length self.new.context.known.files.texts }
        ensures within { OnOk result (self.new.context.known.tokens ≤ MAX_TOKENS) }
        ensures depth { OnOk result (length self.new.outer.items < max_open) }
        ensures size { OnOk result (size_of self.new < size_with self.old (length self.old.rest.items + 1)) }
    {
        let line = take_line(alloc, &mut self.rest)?;
        let depth = self.outer.len() + 1;
        match obey(alloc, files, &mut self.context, depth, hash.pos, &line)? {
            Some(header) => Ok(self.open(alloc, header)?),
            None => Ok(()),
        }
    }

    // Expands the ordinary tokens from this one on, up to the next directive or the end of the file, or skips them.
    fn expand_run(&mut self, alloc: Global, first: Token) -> Result<(), Fault>
        requires plain { begins_directive first ≡ false }
        requires within { self.old.context.known.tokens ≤ MAX_TOKENS }
        ensures leads { (world : World) → LeadsBehind result world first self.old self.new }
        ensures read { IsNoReadFault result }
        ensures numbers { length self.new.context.known.files.texts ≡ length self.old.context.known.files.texts }
        ensures within { self.new.context.known.tokens ≤ MAX_TOKENS }
        ensures outer { self.new.outer ≡ self.old.outer }
        ensures size { OnOk result (length self.new.rest.items ≤ length self.old.rest.items) }
    {
        let run = take_run(alloc, first, &mut self.rest)?;
        if !is_live(&self.context.conditionals) {
            return Ok(());
        }
        let mut expanded = expand_list(
            alloc,
            &self.context.macros,
            &mut self.context.known.tokens,
            run,
        )?;
        self.out.append(&mut expanded)?;
        Ok(())
    }

    // Closes the innermost file, and answers whether one is left.
    fn close(&mut self) -> Result<bool, Fault>
        requires empty { self.old.rest.items ≡ [] }
        ensures leads { (world : World) → Leads result world self.old self.new }
        ensures read { IsNoReadFault result }
        ensures known { self.new.context.known ≡ self.old.context.known }
        ensures depth { length self.new.outer.items ≤ length self.old.outer.items }
        ensures size { Smaller result self.new (size_of self.old) }
    {
        if let Some(unclosed) = outermost(&self.context.conditionals) {
            return Err(malformed(unclosed));
        }
        let Some(file) = self.outer.pop_front() else {
            return Ok(false);
        };
        self.rest = file.rest;
        self.context.conditionals = file.conditionals;
        Ok(true)
    }

    /// Takes a directive, a run of ordinary tokens, or the end of a file, and answers whether a file is left.
    #[tactic(auto, using(crate::proofs::Opening::no_read_fault))]
    pub fn step<F: Files>(&mut self, alloc: Global, files: &mut F) -> Result<bool, Fault>
        requires within { self.old.context.known.tokens ≤ MAX_TOKENS }
        requires depth { length self.old.outer.items < max_open }
        ensures outside { Counts result (F.seen files.old) (F.seen files.new) }
        ensures leads { (world : World) → IsTold (F.seen files.old).texts world → IsLexing world.lexed → Allows result world.broken (length self.new.context.known.files.texts) → Leads result world self.old self.new }
        ensures numbers { OnOk result (length self.old.context.known.files.texts ≤ length self.new.context.known.files.texts) }
        ensures unread { result ≡ Err Fault.ReadFault → length self.old.context.known.files.texts ≤ length self.new.context.known.files.texts }
        ensures within { OnOk result (self.new.context.known.tokens ≤ MAX_TOKENS) }
        ensures depth { OnOk result (length self.new.outer.items < max_open) }
        ensures size { Smaller result self.new (size_of self.old) }
    {
        let Some(token) = self.rest.pop_front() else {
            return self.close();
        };
        if begins_directive(&token) {
            self.obey_line(alloc, files, token)?;
        } else {
            self.expand_run(alloc, token)?;
        }
        Ok(true)
    }

    /// Takes all steps.
    pub fn run<F: Files>(&mut self, alloc: Global, files: &mut F) -> Result<(), Fault>
        requires within { self.old.context.known.tokens ≤ MAX_TOKENS }
        requires depth { length self.old.outer.items < max_open }
        ensures outside { Counts result (F.seen files.old) (F.seen files.new) }
        ensures leads { (world : World) → IsTold (F.seen files.old).texts world → IsLexing world.lexed → Allows result world.broken (length self.new.context.known.files.texts) → RunsTo result world self.old self.new }
        ensures unread { result ≡ Err Fault.ReadFault → length self.old.context.known.files.texts ≤ length self.new.context.known.files.texts }
    {
        while self.step(alloc, files)? {}
        Ok(())
    }
}

// Many scenes, each behind a name.
ghost use Rattle.std.specs.Prelude.{◌≡◌, ◌<◌, ◌≤◌, ◌++◌, [], None, Some, List, ℕ, not, length, IfOk, OnErr};
ghost use Rattle.edge_io.specs.declared.feed.TheConstants.{LINE_LIMIT};
ghost use Rattle.name_tables.specs.Names.{value_of};
ghost use Rattle.name_tables.specs.declared.stops.TheConstants.{NAME_LIMIT};
ghost use Rattle.scene_host.specs.Hosts.{AnswersAs, AnswersFirst, AnswersNamed, HostAnswers, mark_of};
ghost use Rattle.scene_host.specs.declared.limits.TheConstants.{SCENE_LIMIT};

use crate::limits::SCENE_LIMIT;
use crate::named_line::{is_quiet, read_named};
use crate::refusals::{mark_of, refuse_limit, refuse_long, refuse_syntax};
use crate::scene::{Maker, Scene};
use crate::scenes::Scenes;
use edge_io::LINE_LIMIT;
use frac_core::OutOfMemory;
use name_tables::NAME_LIMIT;
use std::alloc::Global;
use std::marker::Model;

/// Many scenes, each behind a name of its own, and what makes new ones.
#[derive(Drop)]
pub struct Host<M: Maker> {
    scenes: Scenes<M::Made>,
    maker: M,
    alloc: Global,
}

impl<M: Maker> Model for Host<M> {
    ghost use Rattle.scene_host.specs.Hosts.{Hosting};

    ghost Value = { Hosting M M.Made };

    ghost view = { λ h. record { maker = h.maker; scenes = h.scenes } };
}

impl<M: Maker> Host<M> {
    /// No scene. It takes no memory yet.
    pub fn new(alloc: Global, maker: M) -> Result<Host<M>, OutOfMemory>
        ensures none { IfOk result (λ host. host.scenes ≡ []) }
        ensures maker { IfOk result (λ host. host.maker ≡ maker) }
    {
        Ok(Host {
            scenes: Scenes::new(alloc),
            maker,
            alloc,
        })
    }

    // Has a new scene answer its first line, and keeps it under its name.
    fn answer_new(
        &mut self,
        name: &str,
        line: &[u8],
        before: &[u8],
        out: &mut Vec<u8>,
    ) -> Result<bool, OutOfMemory>
        requires short { length line.now ≤ LINE_LIMIT }
        requires new { value_of self.old.scenes name.now ≡ None }
        requires room { length self.old.scenes < SCENE_LIMIT }
        requires mark { before.now ≡ mark_of name.now }
        ensures told { IfOk result (λ refused. (text : List ℕ)
            × AnswersFirst M.Made.answers (M.first self.old.maker) self.old.scenes name.now line.now text
            (not refused) self.new.scenes
            × (out.new.items ≡ out.old.items ++ text)) }
        ensures maker { self.new.maker ≡ self.old.maker }
        ensures same { OnErr result (self.new.scenes ≡ self.old.scenes) }
        ensures unchanged { OnErr result (out.new.items ≡ out.old.items) }
    {
        let mut scene = self.maker.make()?;
        let len = out.len();
        let refused = scene.answer_marked(line, before, out)?;
        if self.scenes.add(name, scene).is_err() {
            out.truncate(len);
            return Err(OutOfMemory);
        }
        Ok(refused)
    }

    // Has the first scene of a name answer, where there is room for one more.
    fn answer_first(
        &mut self,
        name: &str,
        line: &[u8],
        before: &[u8],
        out: &mut Vec<u8>,
    ) -> Result<bool, OutOfMemory>
        requires short { length line.now ≤ LINE_LIMIT }
        requires new { value_of self.old.scenes name.now ≡ None }
        requires mark { before.now ≡ mark_of name.now }
        ensures told { IfOk result (λ refused. (text : List ℕ)
            × AnswersAs M.Made.answers (M.first self.old.maker) self.old.scenes name.now line.now None text
            (not refused) self.new.scenes
            × (out.new.items ≡ out.old.items ++ text)) }
        ensures maker { self.new.maker ≡ self.old.maker }
        ensures same { OnErr result (self.new.scenes ≡ self.old.scenes) }
        ensures unchanged { OnErr result (out.new.items ≡ out.old.items) }
    {
        if self.scenes.len() >= SCENE_LIMIT {
            refuse_limit(out, b"scenes")?;
            return Ok(true);
        }
        self.answer_new(name, line, before, out)
    }

    // Has the scene of a name answer, which isn't too long.
    fn answer_known(
        &mut self,
        name: &str,
        line: &[u8],
        out: &mut Vec<u8>,
    ) -> Result<bool, OutOfMemory>
        requires short { length line.now ≤ LINE_LIMIT }
        ensures told { IfOk result (λ refused. (text : List ℕ)
            × AnswersAs M.Made.answers (M.first self.old.maker) self.old.scenes name.now line.now
            (value_of self.old.scenes name.now) text (not refused) self.new.scenes
            × (out.new.items ≡ out.old.items ++ text)) }
        ensures maker { self.new.maker ≡ self.old.maker }
        ensures same { OnErr result (self.new.scenes ≡ self.old.scenes) }
        ensures unchanged { OnErr result (out.new.items ≡ out.old.items) }
    {
        let mark = mark_of(self.alloc, name)?;
        match self.scenes.answer(name, line, &mark, out)? {
            Some(refused) => Ok(refused),
            None => self.answer_first(name, line, &mark, out),
        }
    }

    // Answers a line for a name.
    fn answer_named(
        &mut self,
        name: &str,
        line: &[u8],
        out: &mut Vec<u8>,
    ) -> Result<bool, OutOfMemory>
        requires short { length line.now ≤ LINE_LIMIT }
        ensures told { IfOk result (λ refused. (text : List ℕ)
            × AnswersNamed M.Made.answers (M.first self.old.maker) self.old.scenes name.now line.now text
            (not refused) self.new.scenes
            × (out.new.items ≡ out.old.items ++ text)) }
        ensures maker { self.new.maker ≡ self.old.maker }
        ensures same { OnErr result (self.new.scenes ≡ self.old.scenes) }
        ensures unchanged { OnErr result (out.new.items ≡ out.old.items) }
    {
        if name.len() > NAME_LIMIT {
            refuse_limit(out, b"name")?;
            return Ok(true);
        }
        self.answer_known(name, line, out)
    }

    // Answers a line that isn't too long.
    fn answer_short(&mut self, line: &[u8], out: &mut Vec<u8>) -> Result<bool, OutOfMemory>
        requires short { length line.now ≤ LINE_LIMIT }
        ensures told { IfOk result (λ refused. (text : List ℕ)
            × HostAnswers M.Made.answers (M.first self.old.maker) self.old.scenes line.now text (not refused)
            self.new.scenes
            × (out.new.items ≡ out.old.items ++ text)) }
        ensures maker { self.new.maker ≡ self.old.maker }
        ensures same { OnErr result (self.new.scenes ≡ self.old.scenes) }
        ensures unchanged { OnErr result (out.new.items ≡ out.old.items) }
    {
        if is_quiet(line) {
            return Ok(false);
        }
        match read_named(line) {
            Ok((name, rest)) => self.answer_named(name, rest, out),
            Err(at) => {
                refuse_syntax(out, at)?;
                Ok(true)
            }
        }
    }

    /// Answers a line of the host's script: appends what is said, and says whether that is a refusal. After
    /// want of memory all is as before.
    pub fn answer(&mut self, line: &[u8], out: &mut Vec<u8>) -> Result<bool, OutOfMemory>
        ensures told { IfOk result (λ refused. (text : List ℕ)
            × HostAnswers M.Made.answers (M.first self.old.maker) self.old.scenes line.now text (not refused)
            self.new.scenes
            × (out.new.items ≡ out.old.items ++ text)) }
        ensures maker { self.new.maker ≡ self.old.maker }
        ensures same { OnErr result (self.new.scenes ≡ self.old.scenes) }
        ensures unchanged { OnErr result (out.new.items ≡ out.old.items) }
    {
        if line.len() > LINE_LIMIT {
            refuse_long(out)?;
            return Ok(true);
        }
        self.answer_short(line, out)
    }
}

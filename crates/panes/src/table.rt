//! The pane table at work: a command changes it and has an answer.

ghost use Rattle.std.specs.Prelude.{◌≡◌, Some};
ghost use Rattle.object_map.specs.Laws.{occupied_in};
ghost use Rattle.object_map.specs.Map.{finding, inserting_new, updating};
ghost use Rattle.panes.specs.Table.{begun, opened, shown, resized, closed, applied};
ghost use Rattle.panes.specs.Ledger.{Told, Begun};
ghost use Rattle.panes.specs.Shown.{answer_text};

use super::command::Command;
use super::pane::Pane;
use object_map::map::ObjectMap;
use object_map::refusal::Refusal;
use std::fmt;
use std::marker::Model;

/// What a command did.
#[derive(Clone, Copy, PartialEq, Eq, Debug)]
pub enum Answer {
    Opened(u32, Pane),
    Shown(u32, Pane),
    Resized(u32, Pane),
    Closed(u32),
    /// How many panes are open.
    Listed(usize),
}

/// The panes by number. They lie in the client slots of the map; a viewer has no server's.
#[derive(Drop)]
pub struct PaneTable<'a> {
    map: ObjectMap,
    panes: &'a mut [Option<Pane>],
}

impl<'a> Model for PaneTable<'a> {
    ghost use Rattle.std.specs.Prelude.{[]};
    ghost use Rattle.object_map.specs.Map.{Map, map_of};
    ghost use Rattle.panes.specs.declared.pane.Pane.{Pane};

    ghost Value = { Map Pane };

    ghost view = { λ t. map_of t.map t.panes.now [] };
}

impl<'a> PaneTable<'a> {
    /// A table without panes, with a place for each in `panes`.
    pub fn new(panes: &'a mut [Option<Pane>]) -> Result<PaneTable<'a>, Refusal>
        ensures defined { result ≡ begun panes.old }
        ensures begins { Begun result }
    {
        let map = ObjectMap::new(panes, &mut [])?;
        Ok(PaneTable { map, panes })
    }

    /// Up to which number panes have been opened.
    pub fn last(&self) -> u32
        ensures { result ≡ self.now.client.used }
    {
        u32::from(self.map.client_len())
    }

    fn open(&mut self, pane: Pane) -> Result<Answer, Refusal>
        ensures told { Told self.old result self.new }
        ensures defined { (result, self.new) ≡ opened pane (inserting_new pane self.old) }
    {
        let number = self.map.client_insert_new(self.panes, &[], pane)?;
        Ok(Answer::Opened(number, pane))
    }

    fn show(&self, number: u32) -> Result<Answer, Refusal>
        ensures told { Told self.now result self.now }
        ensures defined { result ≡ shown number (finding number self.now) }
    {
        let pane = self
            .map
            .find(self.panes, &[], number)?
            .ok_or(Refusal::Vacant)?;
        Ok(Answer::Shown(number, pane))
    }

    fn resize(&mut self, number: u32, pane: Pane) -> Result<Answer, Refusal>
        ensures told { Told self.old result self.new }
        ensures defined { (result, self.new) ≡ resized number pane (updating (λ _. pane) number self.old) }
    {
        self.map.update(self.panes, &mut [], number, |_| pane)?;
        Ok(Answer::Resized(number, pane))
    }

    fn close(&mut self, number: u32) -> Result<Answer, Refusal>
        ensures told { Told self.old result self.new }
        ensures defined { (result, self.new) ≡ closed number (finding number self.old) self.old }
    {
        self.show(number)?;
        self.map.remove(self.panes, &mut [], number)?;
        Ok(Answer::Closed(number))
    }

    fn count_open(&self) -> usize
        ensures { result ≡ occupied_in self.now.client }
    {
        let used = usize::from(self.map.client_len());
        let slots = self.panes.iter().take(used);
        slots.filter(|slot| slot.is_some()).count()
    }

    /// Carries a command out.
    pub fn apply(&mut self, command: Command) -> Result<Answer, Refusal>
        ensures told { Told self.old result self.new }
        ensures defined { (result, self.new) ≡ applied command self.old }
    {
        match command {
            Command::Open(pane) => self.open(pane),
            Command::Show(number) => self.show(number),
            Command::Resize(number, pane) => self.resize(number, pane),
            Command::Close(number) => self.close(number),
            Command::List => Ok(Answer::Listed(self.count_open())),
        }
    }
}

impl fmt::Display for Answer {
    ghost output = { λ a. Some (answer_text a) };

    fn fmt<W: fmt::Write>(&self, f: &mut fmt::Formatter<W>) -> fmt::Result {
        match *self {
            Answer::Opened(number, Pane { width, height }) => write!(
                f,
                "opened {number}: {width} x {height}"
            ),
            Answer::Shown(number, Pane { width, height }) => write!(
                f,
                "pane {number}: {width} x {height}"
            ),
            Answer::Resized(number, Pane { width, height }) => write!(
                f,
                "resized {number}: {width} x {height}"
            ),
            Answer::Closed(number) => write!(f, "closed {number}"),
            Answer::Listed(count) => write!(f, "open panes: {count}"),
        }
    }
}

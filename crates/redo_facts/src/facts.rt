ghost use Rattle.std.specs.Prelude.{◌≡◌, ◌∷◌, ◌++◌, [], None, Some, IfNone, IfOk, IfSome, OnOk};
ghost use Rattle.redo_name.specs.Names.{normal};
ghost use Rattle.redo_facts.specs.Facts.{is_log, is_name_of, nothing};
ghost use Rattle.redo_facts.specs.Private.Adding.{with_fact, with_more, with_statement};

use crate::statement::{Form, Usage};
use redo_line::{NameFault, TargetName};
use std::alloc::{AllocError, Global};
use std::marker::Model;

/// A command of a recipe.
#[derive(Drop)]
pub struct Command {
    text: Vec<u8>,
    is_whole: bool,
}

impl Model for Command {
    ghost use Rattle.redo_facts.specs.Facts.{RecipeCommand};

    ghost Value = { RecipeCommand };

    ghost view = { λ command. record { text = command.text.items; is_whole = command.is_whole } };
}

impl Command {
    /// Returns the command. It may contain line feeds.
    pub fn text(&self) -> &[u8]
        ensures { result.now ≡ self.now.text }
    {
        &self.text
    }

    /// Returns whether this is the whole command. Otherwise it is its first part, and the rest isn't known.
    pub fn is_whole(&self) -> bool
        ensures { result ≡ self.now.is_whole }
    {
        self.is_whole
    }
}

// The path of a directory.
#[derive(Drop)]
struct Path {
    bytes: Vec<u8>,
}

impl Model for Path {
    ghost use Rattle.std.specs.Prelude.{ℕ, List};

    ghost Value = { List ℕ };

    ghost view = { λ path. path.bytes.items };
}

impl Path {
    fn bytes(&self) -> &[u8]
        ensures { result.now ≡ self.now }
    {
        &self.bytes
    }
}

/// The facts about a target's recipe. docs/format.md has the rules.
#[derive(Drop)]
pub struct Facts {
    has_log: bool,
    directory: Option<Path>,
    commands: Vec<Command>,
    usage: Option<Usage>,
}

impl Model for Facts {
    ghost use Rattle.redo_facts.specs.Facts.{RecipeFacts};

    ghost Value = { RecipeFacts };

    ghost view = { λ facts. record {
      has_log = facts.has_log;
      directory = facts.directory;
      commands = facts.commands.items;
      usage = facts.usage;
    } };
}

impl Facts {
    // Returns facts that state nothing.
    pub(crate) fn nothing(alloc: Global) -> Facts
        ensures { result ≡ nothing }
    {
        Facts {
            has_log: false,
            directory: None,
            commands: Vec::new(alloc),
            usage: None,
        }
    }

    /// Returns whether the file has this log: whether the last `log` line with the target's number names the target. Otherwise nothing
    /// is known.
    pub fn has_log(&self) -> bool
        ensures { result ≡ self.now.has_log }
    {
        self.has_log
    }

    /// Returns the path of the directory in which the recipe ran, as written, if it is known. It is not empty.
    pub fn directory(&self) -> Option<&[u8]>
        ensures some { IfSome result (λ path. self.now.directory ≡ Some path.now) }
        ensures none { IfNone result (self.now.directory ≡ None) }
    {
        match &self.directory {
            Some(path) => Some(path.bytes()),
            None => None,
        }
    }

    /// Returns the commands of the recipe that are known, in the order of the file.
    pub fn commands(&self) -> &[Command]
        ensures { result.now ≡ self.now.commands }
    {
        self.commands.as_slice()
    }

    /// Returns the resources that the recipe took, if they are known. Each number is below 10^15.
    pub fn usage(&self) -> Option<Usage>
        ensures { result ≡ self.now.usage }
    {
        self.usage
    }

    // Adds a statement with the number of this target. After an error the facts are unspecified.
    pub(crate) fn add(
        &mut self,
        alloc: Global,
        target: &TargetName,
        form: Form,
        text: &[u8],
    ) -> Result<(), AllocError>
        ensures { OnOk result (self.new ≡ with_statement target.now form text.now self.old) }
    {
        if let Form::Log = form {
            *self = Facts::nothing(alloc);
            self.has_log = is_name_of(alloc, target, text)?;
            return Ok(());
        }
        if self.has_log {
            self.add_fact(alloc, form, text)?;
        }
        Ok(())
    }

    // Adds a statement after the `log` line.
    fn add_fact(&mut self, alloc: Global, form: Form, text: &[u8]) -> Result<(), AllocError>
        ensures { OnOk result (self.new ≡ with_fact form text.now self.old) }
    {
        match form {
            Form::Log => {}
            Form::Directory => {
                self.directory = Some(Path {
                    bytes: text.to_vec(alloc)?,
                });
            }
            Form::Command => self.add_command(alloc, text, true)?,
            Form::Truncated => self.add_command(alloc, text, false)?,
            Form::More => extend_last(&mut self.commands, text)?,
            Form::Took(usage) => self.usage = Some(usage),
        }
        Ok(())
    }

    fn add_command(&mut self, alloc: Global, text: &[u8], is_whole: bool) -> Result<(), AllocError>
        ensures { OnOk result (self.new ≡ record self.old {
          commands = self.old.commands ++ record { text = text.now; is_whole = is_whole } ∷ [];
        }) }
    {
        let text = text.to_vec(alloc)?;
        self.commands.push(Command { text, is_whole })?;
        Ok(())
    }
}

// Adds a line feed and a text to the last command, if there is one.
fn extend_last(commands: &mut Vec<Command>, text: &[u8]) -> Result<(), AllocError>
    ensures { OnOk result (commands.new.items ≡ with_more text.now commands.old.items) }
{
    if let Some(mut last) = commands.pop() {
        last.text.push(b'\n')?;
        last.text.extend_from_slice(text)?;
        commands.push(last)?;
    }
    Ok(())
}

// Returns whether a name has this normal form, relative to the base directory.
fn is_name_of(alloc: Global, target: &TargetName, name: &[u8]) -> Result<bool, AllocError>
    ensures { IfOk result (λ is. is ≡ is_name_of target.now (normal None name.now)) }
{
    match TargetName::resolve(alloc, None, name) {
        Ok(named) => Ok(named.same(target)),
        Err(NameFault::Empty) => Ok(false),
        Err(NameFault::OutOfMemory) => Err(AllocError),
    }
}

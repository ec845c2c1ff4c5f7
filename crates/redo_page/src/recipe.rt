//! What an article says about the recipe of its target: the directory in which it ran, and its commands.
//!
//! A reader wants to see the command above its output, as in a terminal. A command of thousands of bytes would hide the output, so it is
//! collapsed. The last commands are shown, because make ends a recipe at the first command that fails.
ghost use Rattle.std.specs.Prelude.{◌≡◌, ◌-◌, ◌&&◌, IfNone, IfSome, drop, length, nat_le};
ghost use Rattle.std.specs.List.{flat_map};
ghost use Rattle.redo_facts.specs.Facts.{nothing};
ghost use Rattle.redo_page.specs.Excerpt.{cut_to, max_excerpt_line};
ghost use Rattle.redo_page.specs.Private.Writing.{WroteParts};
ghost use Rattle.redo_page.specs.Recipe.{beginning_parts, collapsed_parts, command_block, command_parts, commands_parts, directory_parts, earlier_parts, max_command, ran_in_parts, recipe_at, recipe_parts, rest_parts, text_block};

use crate::excerpt::cut_to;
use crate::labels::{DIRECTORY, MORE_BEFORE_THESE, REST_LEFT_OUT};
use crate::targets::write_name;
use crate::writer::PageWriter;
use redo_device::Sink;
use redo_facts::{Command, Facts};
use redo_html::{Markup, Piece};

const MAX_OPEN_COMMAND: usize = 1000;

const MAX_COMMAND: usize = 40000;

const MAX_BEGINNING: usize = 160;

const MAX_COMMANDS: usize = 10;

// ---- directories

fn write_path<W: Sink>(path: &[u8], page: &mut PageWriter<'_, W>)
    ensures { WroteParts W.written page.old page.new (ran_in_parts path.now) }
{
    page.put(&[Piece::Markup(Markup::MetaParagraph), Piece::Text(DIRECTORY)]);
    write_name(path, page);
    page.put(&[Piece::Markup(Markup::EndParagraph)]);
}

fn write_directory<W: Sink>(recipe: &Facts, page: &mut PageWriter<'_, W>)
    ensures { WroteParts W.written page.old page.new (directory_parts recipe.now.directory) }
{
    if let Some(path) = recipe.directory() {
        write_path(path, page);
    }
}

// ---- commands

// Returns the first bytes of a command, `limit` at most.
fn beginning(limit: usize, command: &Command) -> &[u8]
    ensures { result.now ≡ cut_to limit command.now.text }
{
    cut_to(limit, command.text())
}

// Returns whether a command is shown to its end.
fn is_complete(command: &Command) -> bool
    ensures { result ≡ (command.now.is_whole && nat_le (length command.now.text) max_command) }
{
    command.is_whole() && command.text().len() <= MAX_COMMAND
}

fn is_open(command: &Command) -> bool
    ensures { result ≡ nat_le (length command.now.text) max_excerpt_line }
{
    command.text().len() <= MAX_OPEN_COMMAND
}

fn write_text<W: Sink>(text: &[u8], page: &mut PageWriter<'_, W>)
    ensures { WroteParts W.written page.old page.new (text_block text.now) }
{
    page.put(&[
        Piece::Markup(Markup::Pre),
        Piece::Text(text),
        Piece::Markup(Markup::EndPre),
    ]);
}

// Writes that a command has a rest, unless it is shown to its end.
fn write_rest<W: Sink>(is_complete: bool, page: &mut PageWriter<'_, W>)
    ensures { WroteParts W.written page.old page.new (rest_parts is_complete) }
{
    if !is_complete {
        page.put(&[
            Piece::Markup(Markup::CutParagraph),
            Piece::Text(REST_LEFT_OUT),
            Piece::Markup(Markup::EndParagraph),
        ]);
    }
}

fn write_block<W: Sink>(command: &Command, page: &mut PageWriter<'_, W>)
    ensures { WroteParts W.written page.old page.new (command_block command.now) }
{
    write_text(beginning(MAX_COMMAND, command), page);
    write_rest(is_complete(command), page);
}

fn write_beginning<W: Sink>(text: &[u8], page: &mut PageWriter<'_, W>)
    ensures { WroteParts W.written page.old page.new (beginning_parts text.now) }
{
    page.put(&[
        Piece::Markup(Markup::MoreDetails),
        Piece::Markup(Markup::Summary),
        Piece::Markup(Markup::Code),
        Piece::Text(text),
        Piece::Markup(Markup::EndCode),
        Piece::Text(b" ..."),
        Piece::Markup(Markup::EndSummary),
    ]);
}

fn write_collapsed<W: Sink>(command: &Command, page: &mut PageWriter<'_, W>)
    ensures { WroteParts W.written page.old page.new (collapsed_parts command.now) }
{
    write_beginning(beginning(MAX_BEGINNING, command), page);
    write_block(command, page);
    page.put(&[Piece::Markup(Markup::EndDetails)]);
}

#[tactic(auto, using(crate::proofs::WriterLemmas::wrote_then), unfolding(crate::specs::Recipe::command_parts))]
fn write_command<W: Sink>(command: &Command, page: &mut PageWriter<'_, W>)
    ensures { WroteParts W.written page.old page.new (command_parts command.now) }
{
    if is_open(command) {
        write_block(command, page);
    } else {
        write_collapsed(command, page);
    }
}

fn write_each<W: Sink>(commands: &[Command], page: &mut PageWriter<'_, W>)
    ensures { WroteParts W.written page.old page.new (flat_map command_parts commands.now) }
{
    for command in commands {
        write_command(command, page);
    }
}

// Writes how many commands aren't shown.
fn write_earlier<W: Sink>(count: usize, page: &mut PageWriter<'_, W>)
    ensures { WroteParts W.written page.old page.new (earlier_parts count) }
{
    if count != 0 {
        page.put(&[
            Piece::Markup(Markup::CutParagraph),
            Piece::Number(count as u64),
            Piece::Text(MORE_BEFORE_THESE),
            Piece::Markup(Markup::EndParagraph),
        ]);
    }
}

// Returns the number of commands before those that are shown.
fn earlier_count(commands: &[Command]) -> usize
    ensures { result ≡ length commands.now - 10 }
{
    commands.len().saturating_sub(MAX_COMMANDS)
}

fn last_commands(commands: &[Command]) -> &[Command]
    ensures { result.now ≡ drop (length commands.now - 10) commands.now }
{
    &commands[earlier_count(commands)..]
}

fn write_commands<W: Sink>(commands: &[Command], page: &mut PageWriter<'_, W>)
    ensures { WroteParts W.written page.old page.new (commands_parts commands.now) }
{
    write_earlier(earlier_count(commands), page);
    write_each(last_commands(commands), page);
}

// ---- recipes

fn write_known<W: Sink>(recipe: &Facts, page: &mut PageWriter<'_, W>)
    ensures { WroteParts W.written page.old page.new (recipe_parts recipe.now) }
{
    write_directory(recipe, page);
    write_commands(recipe.commands(), page);
}

// Returns what is known of the recipe of the target of log `number`.
fn recipe_at(recipes: &[Facts], number: u32) -> Option<&Facts>
    ensures some { IfSome result (λ recipe. recipe_at recipes.now number ≡ recipe.now) }
    ensures none { IfNone result (recipe_at recipes.now number ≡ nothing) }
{
    recipes.get(number as usize)
}

/// Writes what is known of the recipe of the target of log `number`.
pub fn write_recipe<W: Sink>(recipes: &[Facts], number: u32, page: &mut PageWriter<'_, W>)
    ensures { WroteParts W.written page.old page.new (recipe_parts (recipe_at recipes.now number)) }
{
    if let Some(recipe) = recipe_at(recipes, number) {
        write_known(recipe, page);
    }
}

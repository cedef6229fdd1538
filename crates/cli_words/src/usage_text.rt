//! The usage text.
ghost use Rattle.std.specs.Prelude.{◌≡◌, ◌++◌, ◌∷◌, IfOk, OnOk};
ghost use Rattle.cli_words.specs.Table.{row_of as spec_row_of, row_view};
ghost use Rattle.cli_words.specs.Usage.{command_lines, common_line, file_text, flag_text, parameter_text, parameter_texts, row_line, usage as spec_usage};

use crate::orders::Command;
use crate::table::{Flag, Parameter, Row, SecondFile, all_commands, row_of};
use std::alloc::{AllocError, Global};

// Adds a word.
fn push_word(text: &mut Vec<u8>, word: &str) -> Result<(), AllocError>
    ensures { OnOk result (text.new.items ≡ text.old.items ++ word.now) }
{
    text.extend_from_slice(word.as_bytes())
}

// Adds a space and a word.
fn push_next(text: &mut Vec<u8>, word: &str) -> Result<(), AllocError>
    ensures { OnOk result (text.new.items ≡ text.old.items ++ 32 ∷ word.now) }
{
    text.push(b' ')?;
    push_word(text, word)
}

// Adds an option and its value.
fn push_flag(text: &mut Vec<u8>, flag: Flag) -> Result<(), AllocError>
    ensures { OnOk result (text.new.items ≡ text.old.items ++ flag_text flag) }
{
    push_word(text, "--")?;
    push_word(text, flag.id())?;
    push_next(text, flag.place())
}

// Adds a space, an option and its value.
fn push_next_flag(text: &mut Vec<u8>, flag: Flag) -> Result<(), AllocError>
    ensures { OnOk result (text.new.items ≡ text.old.items ++ 32 ∷ flag_text flag) }
{
    text.push(b' ')?;
    push_flag(text, flag)
}

// Adds what a command has of an option, and a space before it.
fn push_parameter(text: &mut Vec<u8>, parameter: Parameter) -> Result<(), AllocError>
    ensures { OnOk result (text.new.items ≡ text.old.items ++ 32 ∷ parameter_text parameter) }
{
    text.push(b' ')?;
    match parameter {
        Parameter::Needs(flag) => push_flag(text, flag),
        Parameter::Takes(flag) => {
            push_word(text, "[")?;
            push_flag(text, flag)?;
            push_word(text, "]")
        }
        Parameter::Common => push_word(text, "[COMMON]"),
    }
}

fn push_parameters(text: &mut Vec<u8>, parameters: &[Parameter]) -> Result<(), AllocError>
    ensures { OnOk result (text.new.items ≡ text.old.items ++ parameter_texts parameters.now) }
{
    for parameter in parameters {
        push_parameter(text, *parameter)?;
    }
    Ok(())
}

fn push_file(text: &mut Vec<u8>, file: Option<SecondFile>) -> Result<(), AllocError>
    ensures { OnOk result (text.new.items ≡ text.old.items ++ file_text file) }
{
    match file {
        Some(file) => push_next(text, file.place()),
        None => Ok(()),
    }
}

// Adds the line of a row.
fn push_row(text: &mut Vec<u8>, row: &Row<'_>) -> Result<(), AllocError>
    ensures { OnOk result (text.new.items ≡ text.old.items ++ row_line (row_view row.now)) }
{
    push_word(text, row.word)?;
    push_next(text, row.target.place())?;
    push_file(text, row.second)?;
    push_parameters(text, row.options)?;
    push_word(text, "\n")
}

// Adds the lines of these commands.
fn push_commands(text: &mut Vec<u8>, commands: &[Command]) -> Result<(), AllocError>
    ensures { OnOk result (text.new.items ≡ text.old.items ++ command_lines commands.now) }
{
    for command in commands {
        push_row(text, &row_of(*command))?;
    }
    Ok(())
}

// Adds what `COMMON` stands for.
fn push_common(text: &mut Vec<u8>) -> Result<(), AllocError>
    ensures { OnOk result (text.new.items ≡ text.old.items ++ common_line) }
{
    push_word(text, "COMMON:")?;
    push_next_flag(text, Flag::From)?;
    push_next_flag(text, Flag::Faulty)?;
    push_next_flag(text, Flag::Orgs)?;
    push_next_flag(text, Flag::FaultyOrgs)?;
    push_word(text, "\n")
}

/// The usage text: a line for each command, which follows from its row in the table.
#[tactic(auto, unfolding(crate::specs::Usage::usage))]
pub fn usage(alloc: Global) -> Result<Vec<u8>, AllocError>
    ensures { IfOk result (λ text. text.items ≡ spec_usage) }
{
    let mut text = Vec::new(alloc);
    push_word(&mut text, "usage: quorum_cli COMMAND\n")?;
    push_commands(&mut text, all_commands())?;
    push_common(&mut text)?;
    Ok(text)
}

//! The text of objects, of functions and of a manifest.

ghost use Rattle.std.specs.Prelude.{◌≡◌, ◌++◌, ◌∷◌, OnOk, IfOk, codes, map, flat_map, if◌then◌else◌};
ghost use Rattle.nf_cast.specs.Text.{cells_text, object_start, object_text, form_text, params_text, func_text, item_text, name_line, text_line, manifest_text, include_text, proto_text, others_text};

use crate::expression_text::push_literal;
use crate::manifests::{CManifest, CName};
use crate::objects::{CForm, CFunc, CItem, CObject};
use crate::statement_text::push_block;
use itoa::Buffer;
use nf_core::{Lines, NoMemory, Text};
use std::alloc::Global;

/// Puts an object at the end of other text.
fn push_object(object: &CObject, lines: &mut Lines) -> Result<(), NoMemory>
    ensures { OnOk result (lines.new ≡ lines.old ++ object_text object.now) }
{
    push_object_start(lines)?;
    lines.push(object.name.as_str().as_bytes())?;
    push_cells(object, lines)?;
    lines.push(b";\n")
}

/// Puts what an object's declaration begins with at the end of other text.
#[tactic(auto, unfolding(crate::specs::Text::object_start))]
fn push_object_start(lines: &mut Lines) -> Result<(), NoMemory>
    ensures { OnOk result (lines.new ≡ lines.old ++ object_start) }
{
    lines.push(b"static int64_t ")
}

/// Puts the number of an array's cells in brackets at the end of other text.
#[tactic(auto, unfolding(crate::specs::Text::cells_text))]
fn push_cells(object: &CObject, lines: &mut Lines) -> Result<(), NoMemory>
    ensures { OnOk result (lines.new ≡ lines.old ++ cells_text object.now.cells) }
{
    match object.cells {
        None => Ok(()),
        Some(count) => {
            lines.push(b"[")?;
            push_literal(count, lines)?;
            lines.push(b"]")
        }
    }
}

/// What stands before the name of a function (`form_text` in specs/Text.antt).
#[tactic(auto, unfolding(crate::specs::Text::form_text))]
fn words_of_form(form: CForm) -> &'static str
    ensures { result.now ≡ form_text form }
{
    match form {
        CForm::StaticVoid => "static void ",
        CForm::StaticInt => "static int64_t ",
        CForm::Int => "int64_t ",
    }
}

/// Puts the parameters of a function at the end of other text, and `void` where it has none.
#[tactic(auto, unfolding(crate::specs::Text::params_text, crate::specs::Text::listed))]
fn push_params(params: &[Text], lines: &mut Lines) -> Result<(), NoMemory>
    ensures { OnOk result (lines.new ≡ lines.old ++ params_text params.now) }
{
    match params {
        [] => lines.push(b"void"),
        [first, others @ ..] => {
            lines.push(b"int64_t ")?;
            lines.push(first.as_str().as_bytes())?;
            push_other_params(others, lines)
        }
    }
}

/// Puts each parameter at the end of other text, each after `, `.
fn push_other_params(params: &[Text], lines: &mut Lines) -> Result<(), NoMemory>
    ensures { OnOk result (lines.new
        ≡ lines.old ++ others_text (map (λ x. codes "int64_t " ++ x) params.now)) }
{
    for param in params {
        lines.push(b", int64_t ")?;
        lines.push(param.as_str().as_bytes())?;
    }
    Ok(())
}

/// Puts a function at the end of other text, after an empty line.
fn push_func(alloc: Global, func: &CFunc, lines: &mut Lines) -> Result<(), NoMemory>
    ensures { OnOk result (lines.new ≡ lines.old ++ func_text func.now) }
{
    lines.push(b"\n")?;
    lines.push(words_of_form(func.form).as_bytes())?;
    lines.push(func.name.as_str().as_bytes())?;
    lines.push(b"(")?;
    push_params(func.params.as_slice(), lines)?;
    lines.push(b") ")?;
    push_block(alloc, &func.body, b"", lines)?;
    lines.push(b"\n")
}

/// Puts an object or a function at the end of other text.
#[tactic(auto, unfolding(crate::specs::Text::item_text))]
fn push_item(alloc: Global, item: &CItem, lines: &mut Lines) -> Result<(), NoMemory>
    ensures { OnOk result (lines.new ≡ lines.old ++ item_text item.now) }
{
    match item {
        CItem::Object(object) => push_object(object, lines),
        CItem::Func(func) => push_func(alloc, func, lines),
    }
}

/// Puts objects and functions at the end of other text.
pub(crate) fn push_items(alloc: Global, items: &[CItem], lines: &mut Lines) -> Result<(), NoMemory>
    ensures { OnOk result (lines.new ≡ lines.old ++ flat_map item_text items.now) }
{
    for item in items {
        push_item(alloc, item, lines)?;
    }
    Ok(())
}

/// Puts a manifest at the end of other text.
pub(crate) fn push_manifest(
    alloc: Global,
    manifest: &CManifest,
    lines: &mut Lines,
) -> Result<(), NoMemory>
    ensures { OnOk result (lines.new ≡ lines.old ++ manifest_text manifest.now) }
{
    lines.push(b"/*nfer ")?;
    lines.push(Buffer::new().format(manifest.version).as_bytes())?;
    lines.push(b"\n")?;
    push_names(manifest.names.as_slice(), lines)?;
    push_texts(alloc, manifest.texts.as_slice(), lines)?;
    lines.push(b"*/\n")
}

/// Puts the lines of names at the end of other text.
fn push_names(names: &[CName], lines: &mut Lines) -> Result<(), NoMemory>
    ensures { OnOk result (lines.new ≡ lines.old ++ flat_map name_line names.now) }
{
    for name in names {
        push_name(name, lines)?;
    }
    Ok(())
}

/// Puts the line of a name at the end of other text.
fn push_name(name: &CName, lines: &mut Lines) -> Result<(), NoMemory>
    ensures { OnOk result (lines.new ≡ lines.old ++ name_line name.now) }
{
    lines.push(word_of_name(name.is_head).as_bytes())?;
    lines.push(name.name.as_str().as_bytes())?;
    push_keys(name.keys.as_slice(), lines)?;
    lines.push(b"\n")
}

/// The word with which the line of a name begins.
fn word_of_name(is_head: bool) -> &'static str
    ensures { result.now ≡ (if is_head then codes "head " else codes "name ") }
{
    if is_head { "head " } else { "name " }
}

/// Puts keys at the end of other text, each after a space.
fn push_keys(keys: &[Text], lines: &mut Lines) -> Result<(), NoMemory>
    ensures { OnOk result (lines.new ≡ lines.old ++ flat_map (λ key. codes " " ++ key) keys.now) }
{
    for key in keys {
        lines.push(b" ")?;
        lines.push(key.as_str().as_bytes())?;
    }
    Ok(())
}

/// Puts the lines of texts at the end of other text.
fn push_texts(alloc: Global, texts: &[Text], lines: &mut Lines) -> Result<(), NoMemory>
    ensures { OnOk result (lines.new ≡ lines.old ++ flat_map text_line texts.now) }
{
    for text in texts {
        push_text(alloc, text, lines)?;
    }
    Ok(())
}

/// Puts the line of a text at the end of other text, with its bytes in hexadecimal.
fn push_text(alloc: Global, text: &Text, lines: &mut Lines) -> Result<(), NoMemory>
    ensures { OnOk result (lines.new ≡ lines.old ++ text_line text.now) }
{
    let digits = hex::encode(alloc, text.as_str().as_bytes())?;
    lines.push(b"text x")?;
    lines.push(digits.as_str().as_bytes())?;
    lines.push(b"\n")
}

/// Puts the include line and the declaration of `nf_emit` at the end of other text.
#[tactic(auto, unfolding(crate::specs::Text::include_text, crate::specs::Text::proto_text))]
pub(crate) fn push_opening(lines: &mut Lines) -> Result<(), NoMemory>
    ensures { OnOk result (lines.new ≡ lines.old ++ include_text ++ proto_text) }
{
    lines.push(b"#include <stdint.h>\n")?;
    lines.push(b"void nf_emit(int64_t sign, int64_t name, int64_t begin, int64_t end);\n")
}

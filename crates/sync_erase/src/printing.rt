//! The erased form: code as text.
ghost use Rattle.std.specs.Prelude.{◌≡◌, ◌++◌, ◌∷◌, [], codes, map, option_map, IfOk, OnOk};
ghost use Rattle.std.specs.Fmt.{decimal};
ghost use Rattle.std.specs.List.{flat_map};
ghost use Rattle.sync_base.specs.Names.{spelling};
ghost use Rattle.sync_thread.specs.Code.{Operate, Print, Write};
ghost use Rattle.sync_thread.specs.Views.{code_list_tree, code_thread_tree, code_tree};
ghost use Rattle.sync_erase.specs.ErasedForm.{Prints, array_text, calculation_text, code_text, condition_text};
ghost use Rattle.sync_erase.specs.ErasedForm.{decl_text, deeper, element_text, final_text, given_text, line_text};
ghost use Rattle.sync_erase.specs.ErasedForm.{list_text, maybe_given_text, operand_text, operation_text};
ghost use Rattle.sync_erase.specs.ErasedForm.{relation_text, step_text, thread_text};

use sqlite_items::Items;
use std::alloc::{AllocError, Global};
use sync_base::{NameList, NoMemory};
use sync_thread::{Calc, Code, CodeDecl, CodeStmt, CodeThread, Cond, Opd, Rel, WordOp};

/// The erased form of code whose names these are.
pub fn print_code(alloc: Global, c: &Code, names: &NameList) -> Result<Vec<u8>, NoMemory>
    ensures { IfOk result (λ text. text.items ≡ code_text names.now (code_tree c.now)) }
{
    let mut out = Vec::new(alloc);
    declarations(alloc, names, c.decls.as_slice(), &mut out)?;
    threads(alloc, names, c.threads.as_slice(), &mut out)?;
    final_lines(alloc, names, &c.last, &mut out)?;
    Ok(out)
}

/// More bytes.
fn put(bytes: &[u8], out: &mut Vec<u8>) -> Result<(), AllocError>
    ensures { OnOk result (out.new.items ≡ out.old.items ++ bytes.now) }
{
    out.extend_from_slice(bytes)?;
    Ok(())
}

/// A line of these words alone.
fn line(indent: &[u8], words: &[u8], out: &mut Vec<u8>) -> Result<(), AllocError>
    ensures { OnOk result (out.new.items ≡ out.old.items ++ line_text indent.now words.now) }
{
    put(indent, out)?;
    put(words, out)?;
    put(b"\n", out)?;
    Ok(())
}

/// A name.
fn name(names: &NameList, number: u32, out: &mut Vec<u8>) -> Result<(), AllocError>
    ensures { OnOk result (out.new.items ≡ out.old.items ++ spelling names.now number) }
{
    put(names.spelling(number), out)
}

/// A number.
fn number(alloc: Global, n: u64, out: &mut Vec<u8>) -> Result<(), AllocError>
    ensures { OnOk result (out.new.items ≡ out.old.items ++ decimal n) }
{
    let digits = format!(in alloc; "{n}")?;
    put(digits.as_bytes(), out)
}

/// A number or a local.
fn operand(alloc: Global, names: &NameList, o: Opd, out: &mut Vec<u8>) -> Result<(), AllocError>
    ensures { OnOk result (out.new.items ≡ out.old.items ++ operand_text names.now o) }
{
    match o {
        Opd::Number(n) => number(alloc, n, out),
        Opd::Local(x) => name(names, x, out),
    }
}

/// An element of an array.
fn element(
    alloc: Global,
    names: &NameList,
    array: u32,
    index: Opd,
    out: &mut Vec<u8>,
) -> Result<(), AllocError>
    ensures { OnOk result (out.new.items ≡ out.old.items ++ element_text names.now array index) }
{
    name(names, array, out)?;
    put(b"[", out)?;
    operand(alloc, names, index, out)?;
    put(b"]", out)?;
    Ok(())
}

/// The local that something is given to.
fn given(names: &NameList, local: u32, out: &mut Vec<u8>) -> Result<(), AllocError>
    ensures { OnOk result (out.new.items ≡ out.old.items ++ given_text names.now local) }
{
    name(names, local, out)?;
    put(b" = ", out)?;
    Ok(())
}

/// The local that something is given to, if there is one.
fn maybe_given(names: &NameList, local: Option<u32>, out: &mut Vec<u8>) -> Result<(), AllocError>
    ensures { OnOk result (out.new.items ≡ out.old.items ++ maybe_given_text names.now local) }
{
    match local {
        Some(local) => given(names, local, out),
        None => Ok(()),
    }
}

/// A relation, with spaces round it.
fn relation(rel: Rel) -> &'static [u8]
    ensures { result.now ≡ relation_text rel }
{
    match rel {
        Rel::Eq => b" = ",
        Rel::Ne => b" != ",
        Rel::Lt => b" < ",
        Rel::Le => b" <= ",
    }
}

/// A condition.
fn condition(alloc: Global, names: &NameList, c: Cond, out: &mut Vec<u8>) -> Result<(), AllocError>
    ensures { OnOk result (out.new.items ≡ out.old.items ++ condition_text names.now c) }
{
    operand(alloc, names, c.left, out)?;
    put(relation(c.rel), out)?;
    operand(alloc, names, c.right, out)?;
    Ok(())
}

/// Two operands, with this between them.
fn operands(
    alloc: Global,
    names: &NameList,
    a: Opd,
    between: &[u8],
    b: Opd,
    out: &mut Vec<u8>,
) -> Result<(), AllocError>
    ensures { OnOk result (out.new.items ≡
        out.old.items ++ (operand_text names.now a ++ between.now ++ operand_text names.now b)) }
{
    operand(alloc, names, a, out)?;
    put(between, out)?;
    operand(alloc, names, b, out)?;
    Ok(())
}

/// A calculation.
fn calculation(
    alloc: Global,
    names: &NameList,
    calc: Calc,
    out: &mut Vec<u8>,
) -> Result<(), AllocError>
    ensures { OnOk result (out.new.items ≡ out.old.items ++ calculation_text names.now calc) }
{
    match calc {
        Calc::Plain(a) => operand(alloc, names, a, out),
        Calc::Plus(a, b) => operands(alloc, names, a, b" + ", b, out),
        Calc::Minus(a, b) => operands(alloc, names, a, b" - ", b, out),
        Calc::Times(a, n) => operands(alloc, names, a, b" * ", Opd::Number(n), out),
        Calc::Over(a, n) => operands(alloc, names, a, b" / ", Opd::Number(n), out),
        Calc::Modulo(a, n) => operands(alloc, names, a, b" % ", Opd::Number(n), out),
    }
}

/// An operation's name, the element that it is done on, and an operand after this.
fn applied(
    alloc: Global,
    names: &NameList,
    opening: &[u8],
    word: u32,
    index: Opd,
    out: &mut Vec<u8>,
) -> Result<(), AllocError>
    ensures { OnOk result (out.new.items ≡ out.old.items ++ (opening.now ++ element_text names.now word index)) }
{
    put(opening, out)?;
    element(alloc, names, word, index, out)?;
    Ok(())
}

/// An operand, after this.
fn with_operand(
    alloc: Global,
    names: &NameList,
    between: &[u8],
    a: Opd,
    out: &mut Vec<u8>,
) -> Result<(), AllocError>
    ensures { OnOk result (out.new.items ≡ out.old.items ++ (between.now ++ operand_text names.now a)) }
{
    put(between, out)?;
    operand(alloc, names, a, out)?;
    Ok(())
}

/// An operation on a word.
fn operation(
    alloc: Global,
    names: &NameList,
    op: WordOp,
    word: u32,
    index: Opd,
    out: &mut Vec<u8>,
) -> Result<(), AllocError>
    ensures { OnOk result (out.new.items ≡
        out.old.items ++ operation_text names.now (element_text names.now word index) op) }
{
    match op {
        WordOp::Load => applied(alloc, names, b"load ", word, index, out),
        WordOp::Store(a) => {
            applied(alloc, names, b"store ", word, index, out)?;
            with_operand(alloc, names, b" = ", a, out)
        }
        WordOp::Swap(a) => {
            applied(alloc, names, b"swap ", word, index, out)?;
            with_operand(alloc, names, b" ", a, out)
        }
        WordOp::Add(a) => {
            applied(alloc, names, b"add ", word, index, out)?;
            with_operand(alloc, names, b" ", a, out)
        }
        WordOp::Sub(a) => {
            applied(alloc, names, b"sub ", word, index, out)?;
            with_operand(alloc, names, b" ", a, out)
        }
        WordOp::Cas(a, b) => {
            applied(alloc, names, b"cas ", word, index, out)?;
            with_operand(alloc, names, b" ", a, out)?;
            with_operand(alloc, names, b" ", b, out)
        }
    }
}

/// The line of a local that is calculated.
fn set_line(
    alloc: Global,
    names: &NameList,
    indent: &[u8],
    local: u32,
    calc: Calc,
    out: &mut Vec<u8>,
) -> Result<(), AllocError>
    ensures { OnOk result (out.new.items ≡
        out.old.items ++ line_text indent.now
        (given_text names.now local ++ calculation_text names.now calc ++ codes ";")) }
{
    put(indent, out)?;
    given(names, local, out)?;
    calculation(alloc, names, calc, out)?;
    put(b";\n", out)?;
    Ok(())
}

/// The line of a read or a peek.
fn read_line(
    alloc: Global,
    names: &NameList,
    indent: &[u8],
    local: u32,
    opening: &[u8],
    cell: u32,
    index: Opd,
    out: &mut Vec<u8>,
) -> Result<(), AllocError>
    ensures { OnOk result (out.new.items ≡
        out.old.items ++ line_text indent.now
        (given_text names.now local ++ opening.now ++ element_text names.now cell index ++ codes ";")) }
{
    put(indent, out)?;
    given(names, local, out)?;
    applied(alloc, names, opening, cell, index, out)?;
    put(b";\n", out)?;
    Ok(())
}

/// The line of a write.
fn write_line(
    alloc: Global,
    names: &NameList,
    indent: &[u8],
    cell: u32,
    index: Opd,
    a: Opd,
    out: &mut Vec<u8>,
) -> Result<(), AllocError>
    ensures { OnOk result (out.new.items ≡
        out.old.items ++ line_text indent.now (step_text names.now (Write cell index a) ++ codes ";")) }
{
    put(indent, out)?;
    applied(alloc, names, b"write ", cell, index, out)?;
    with_operand(alloc, names, b" = ", a, out)?;
    put(b";\n", out)?;
    Ok(())
}

/// The line of an operation on a word.
fn word_line(
    alloc: Global,
    names: &NameList,
    indent: &[u8],
    local: Option<u32>,
    op: WordOp,
    word: u32,
    index: Opd,
    out: &mut Vec<u8>,
) -> Result<(), AllocError>
    ensures { OnOk result (out.new.items ≡
        out.old.items ++ line_text indent.now (step_text names.now (Operate local op word index) ++ codes ";")) }
{
    put(indent, out)?;
    maybe_given(names, local, out)?;
    operation(alloc, names, op, word, index, out)?;
    put(b";\n", out)?;
    Ok(())
}

/// The line of a print.
fn print_line(
    alloc: Global,
    names: &NameList,
    indent: &[u8],
    label: u32,
    a: Opd,
    out: &mut Vec<u8>,
) -> Result<(), AllocError>
    ensures { OnOk result (out.new.items ≡
        out.old.items ++ line_text indent.now (step_text names.now (Print label a) ++ codes ";")) }
{
    put(indent, out)?;
    put(b"print ", out)?;
    name(names, label, out)?;
    with_operand(alloc, names, b" ", a, out)?;
    put(b";\n", out)?;
    Ok(())
}

/// The line that begins the first branch after a condition.
fn if_line(
    alloc: Global,
    names: &NameList,
    indent: &[u8],
    c: Cond,
    out: &mut Vec<u8>,
) -> Result<(), AllocError>
    ensures { OnOk result (out.new.items ≡
        out.old.items ++ line_text indent.now (codes "if " ++ condition_text names.now c ++ codes " {")) }
{
    put(indent, out)?;
    put(b"if ", out)?;
    condition(alloc, names, c, out)?;
    put(b" {\n", out)?;
    Ok(())
}

/// One level more.
fn deeper_by_one(alloc: Global, indent: &[u8]) -> Result<Vec<u8>, AllocError>
    ensures { IfOk result (λ more. more.items ≡ deeper indent.now) }
{
    let mut more = Vec::new(alloc);
    put(b"  ", &mut more)?;
    put(indent, &mut more)?;
    Ok(more)
}

/// The statements of a list, one level deeper.
#[cycle(lines)]
fn nested(
    alloc: Global,
    names: &NameList,
    indent: &[u8],
    list: &[CodeStmt],
    out: &mut Vec<u8>,
) -> Result<(), AllocError>
    ensures { OnOk result (out.new.items ≡
        out.old.items ++ list_text names.now (deeper indent.now) (code_list_tree list.now)) }
{
    let inner = deeper_by_one(alloc, indent)?;
    statements(alloc, names, inner.as_slice(), list, out)
}

/// A statement.
#[cycle(lines)]
fn statement(
    alloc: Global,
    names: &NameList,
    indent: &[u8],
    stmt: &CodeStmt,
    out: &mut Vec<u8>,
) -> Result<(), AllocError>
    ensures { OnOk result (Prints names.now indent.now stmt.now out.old.items out.new.items) }
{
    match stmt {
        CodeStmt::Set(local, calc) => set_line(alloc, names, indent, *local, *calc, out),
        CodeStmt::Read(local, cell, index) => {
            read_line(alloc, names, indent, *local, b"read ", *cell, *index, out)
        }
        CodeStmt::Peek(local, cell, index) => {
            read_line(alloc, names, indent, *local, b"peek ", *cell, *index, out)
        }
        CodeStmt::Write(cell, index, a) => {
            write_line(alloc, names, indent, *cell, *index, *a, out)
        }
        CodeStmt::Word(local, op, word, index) => {
            word_line(alloc, names, indent, *local, *op, *word, *index, out)
        }
        CodeStmt::Print(label, a) => print_line(alloc, names, indent, *label, *a, out),
        CodeStmt::If(c, yes, no) => {
            if_line(alloc, names, indent, *c, out)?;
            nested(alloc, names, indent, yes.as_slice(), out)?;
            line(indent, b"} else {", out)?;
            nested(alloc, names, indent, no.as_slice(), out)?;
            line(indent, b"}", out)
        }
        CodeStmt::Loop(body) => {
            line(indent, b"loop {", out)?;
            nested(alloc, names, indent, body.as_slice(), out)?;
            line(indent, b"}", out)
        }
        CodeStmt::Next => line(indent, b"next;", out),
        CodeStmt::Break => line(indent, b"break;", out),
        CodeStmt::End => line(indent, b"end;", out),
    }
}

/// The statements of a list.
#[cycle(lines)]
fn statements(
    alloc: Global,
    names: &NameList,
    indent: &[u8],
    list: &[CodeStmt],
    out: &mut Vec<u8>,
) -> Result<(), AllocError>
    ensures { OnOk result (out.new.items ≡
        out.old.items ++ list_text names.now indent.now (code_list_tree list.now)) }
{
    for stmt in list {
        statement(alloc, names, indent, stmt, out)?;
    }
    Ok(())
}

/// What stands in braces after what was written of a line.
fn block(
    alloc: Global,
    names: &NameList,
    list: &[CodeStmt],
    out: &mut Vec<u8>,
) -> Result<(), AllocError>
    ensures { OnOk result (out.new.items ≡
        out.old.items ++
        (codes " {" ++ 10 ∷ [] ++ list_text names.now (codes "  ") (code_list_tree list.now) ++ line_text [] (codes "}"))) }
{
    put(b" {\n", out)?;
    statements(alloc, names, b"  ", list, out)?;
    line(&[], b"}", out)?;
    Ok(())
}

/// A thread.
fn thread_lines(
    alloc: Global,
    names: &NameList,
    thread: &CodeThread,
    out: &mut Vec<u8>,
) -> Result<(), AllocError>
    ensures { OnOk result (out.new.items ≡ out.old.items ++ thread_text names.now (code_thread_tree thread.now)) }
{
    put(b"thread ", out)?;
    name(names, thread.name, out)?;
    block(alloc, names, thread.body.as_slice(), out)?;
    Ok(())
}

/// The final block, if there is one.
fn final_lines(
    alloc: Global,
    names: &NameList,
    last: &Option<Items<CodeStmt>>,
    out: &mut Vec<u8>,
) -> Result<(), AllocError>
    ensures { OnOk result (out.new.items ≡
        out.old.items ++ final_text names.now (option_map code_list_tree last.now)) }
{
    match last {
        Some(list) => {
            put(b"final", out)?;
            block(alloc, names, list.as_slice(), out)?;
            Ok(())
        }
        None => Ok(()),
    }
}

/// The line of an array.
fn array(
    alloc: Global,
    names: &NameList,
    kind: &[u8],
    array: u32,
    len: u32,
    init: u64,
    out: &mut Vec<u8>,
) -> Result<(), AllocError>
    ensures { OnOk result (out.new.items ≡ out.old.items ++ array_text names.now kind.now array len init) }
{
    put(kind, out)?;
    name(names, array, out)?;
    put(b"[", out)?;
    number(alloc, len as u64, out)?;
    put(b"] = ", out)?;
    number(alloc, init, out)?;
    put(b";\n", out)?;
    Ok(())
}

/// A word or a cell.
fn declaration(
    alloc: Global,
    names: &NameList,
    decl: &CodeDecl,
    out: &mut Vec<u8>,
) -> Result<(), AllocError>
    ensures { OnOk result (out.new.items ≡ out.old.items ++ decl_text names.now decl.now) }
{
    match decl {
        CodeDecl::Word(name, len, init) => array(alloc, names, b"word ", *name, *len, *init, out),
        CodeDecl::Cell(name, len, init) => array(alloc, names, b"cell ", *name, *len, *init, out),
    }
}

/// The words and cells.
fn declarations(
    alloc: Global,
    names: &NameList,
    decls: &[CodeDecl],
    out: &mut Vec<u8>,
) -> Result<(), AllocError>
    ensures { OnOk result (out.new.items ≡ out.old.items ++ flat_map (decl_text names.now) decls.now) }
{
    for decl in decls {
        declaration(alloc, names, decl, out)?;
    }
    Ok(())
}

/// The threads.
fn threads(
    alloc: Global,
    names: &NameList,
    threads: &[CodeThread],
    out: &mut Vec<u8>,
) -> Result<(), AllocError>
    ensures { OnOk result (out.new.items ≡
        out.old.items ++ flat_map (λ t. thread_text names.now (code_thread_tree t)) threads.now) }
{
    for thread in threads {
        thread_lines(alloc, names, thread, out)?;
    }
    Ok(())
}

//! Expressions and conditions, written with a parenthesis for each step of their meaning.

use crate::cases::{Text, check_text};
use bas_ast::{
    Actual, Cond, Conj, Expr, Factor, FactorSign, Numeral, Primary, Rel, Sign, Target, Term,
    TermSign, Test,
};
use bas_expr::{ExprFault, cond, expr};
use bas_token::tokens;
use std::alloc::Global;
use std::process::Abort;

/// Each text with the tree of its longest expression and the number of tokens in it, or `?`.
///
/// `[..]` are arguments or subscripts, `{..}` the ends of a substring, `<..>` parentheses; a numeral
/// that has more than digits is its coefficient and its places.
static OPERATORS: [(&str, &str); 26] = [
    ("1e-2", "1/2 1"),
    ("-2^2", "(-(2^2)) 4"),
    ("+A", "(+A) 2"),
    ("2^3^2", "((2^3)^2) 5"),
    ("A-B-C", "((A-B)-C) 5"),
    ("A-B+C", "((A-B)+C) 5"),
    ("-A-B", "((-A)-B) 4"),
    ("A*B/C", "((A*B)/C) 5"),
    ("A/B*C", "((A/B)*C) 5"),
    ("A+B*C", "(A+(B*C)) 5"),
    ("A*B+C", "((A*B)+C) 5"),
    ("A*B^C", "(A*(B^C)) 5"),
    ("A$&B$&\"x\"", "((A$&B$)&\"x\") 5"),
    ("A*-B", "A 1"),
    ("A--B", "A 1"),
    ("A+-B", "A 1"),
    ("2^-2", "2 1"),
    ("--A", "?"),
    ("*A", "?"),
    ("A+", "A 1"),
    ("A B", "A 1"),
    ("(A+B)*C", "(<(A+B)>*C) 7"),
    ("(-A)", "<(-A)> 4"),
    ("A!1", "A 1"),
    ("A^B^C^D", "(((A^B)^C)^D) 7"),
    ("1 2", "1 1"),
];

static OPERANDS: [(&str, &str); 19] = [
    ("", "?"),
    ("1", "1 1"),
    ("007", "7 1"),
    ("1.5", "15/1 1"),
    ("1.50", "15/1 1"),
    ("1E2", "100/0 1"),
    ("A", "A 1"),
    ("a1_$", "A1_$ 1"),
    ("\"a\"\"b\"", "\"a\"b\" 1"),
    ("\"\"", "\"\" 1"),
    ("(A)", "<A> 3"),
    ("((A))", "<<A>> 5"),
    ("(A", "?"),
    ("()", "?"),
    (")", "?"),
    ("1E40", "?"),
    ("ABCDEFGHIJKLMNOPQRSTUVWXYZ123456", "?"),
    (".5", "5/1 1"),
    ("1.", "1/0 1"),
];

static LISTS: [(&str, &str); 21] = [
    ("F(1)", "F[1] 4"),
    ("F(1,2,3)", "F[1,2,3] 8"),
    ("F(#1)", "F[#1] 5"),
    ("F(A,#B+1)", "F[A,#(B+1)] 9"),
    ("F()", "F 1"),
    ("F(1", "F 1"),
    ("F(1,)", "F 1"),
    ("F(##1)", "F 1"),
    ("#1", "?"),
    ("RND", "RND 1"),
    ("MAX(A,B)+1", "(MAX[A,B]+1) 8"),
    ("NOT", "?"),
    ("ELSE", "?"),
    ("PRINT", "?"),
    ("REM$", "REM$ 1"),
    ("TAB", "?"),
    ("TAB(1)", "?"),
    ("F(G(H(1)))", "F[G[H[1]]] 10"),
    ("A(1)+B(2)", "(A[1]+B[2]) 9"),
    ("LEN", "LEN 1"),
    ("REM", "?"),
];

static SUBSTRINGS: [(&str, &str); 16] = [
    ("A$(1:2)", "A${1:2} 6"),
    ("A$(I+1:LEN(A$))", "A${(I+1):LEN[A$]} 11"),
    ("A$(1)(2:3)", "A$[1]{2:3} 9"),
    ("A$(1,J)(2:3)", "A$[1,J]{2:3} 11"),
    ("A$(1:2)(3:4)", "A${1:2} 6"),
    ("A$(1)(2)", "A$[1] 4"),
    ("A$(#1)(2:3)", "A$[#1] 5"),
    ("A$(1:2,3)", "A$ 1"),
    ("A$(#1:2)", "A$ 1"),
    ("A$(:2)", "A$ 1"),
    ("A$(1:)", "A$ 1"),
    ("UCASE$(A$)(1:2)", "UCASE$[A$] 4"),
    ("UCASE$(1:2)", "UCASE$ 1"),
    ("ucase$(a$)", "UCASE$[A$] 4"),
    ("(A$(1:2))", "<A${1:2}> 8"),
    ("(1:2)", "?"),
];

/// Each text with the tree of its longest condition and the number of tokens in it, or `?`.
///
/// `{..}` are parentheses.
static CONDITIONS: [(&str, &str); 26] = [
    ("A = B", "A=B 3"),
    ("A<>B", "A<>B 3"),
    ("A><B", "A<>B 3"),
    ("A<B", "A<B 3"),
    ("A>B", "A>B 3"),
    ("A<=B", "A<=B 3"),
    ("A=<B", "A<=B 3"),
    ("A>=B", "A>=B 3"),
    ("A=>B", "A>=B 3"),
    ("A< =B", "?"),
    ("A", "?"),
    ("A+1 = -B", "(A+1)=(-B) 6"),
    ("(A) > B", "<A>>B 5"),
    ("(A > B)", "{A>B} 5"),
    ("((A > B))", "{{A>B}} 7"),
    ("((A) > B)", "{<A>>B} 7"),
    ("(A > B) > C", "{A>B} 5"),
    ("NOT A = B", "not A=B 4"),
    ("NOT NOT A = B", "not not A=B 5"),
    ("not(A=B)", "not {A=B} 6"),
    ("NOT A", "?"),
    ("A=B AND C=D", "[A=B and C=D] 7"),
    ("A=B OR C=D AND NOT E=F", "[A=B or [C=D and not E=F]] 12"),
    (
        "A=B AND C=D OR E=F OR G=H",
        "[[A=B and C=D] or E=F or G=H] 15",
    ),
    ("A=B AND", "A=B 3"),
    ("AND = OR AND OR = AND", "[AND=OR and OR=AND] 7"),
];

fn put_opening(out: &mut Text, times: usize) {
    for _ in 0..times {
        out.put("(");
    }
}

fn put_separator(out: &mut Text, is_first: bool) {
    if is_first {
        out.put("[");
    } else {
        out.put(",");
    }
}

fn put_numeral(out: &mut Text, numeral: Numeral) {
    let (coefficient, places) = numeral.value.parts();
    out.put_number(coefficient);
    if !numeral.digits {
        out.put("/");
        out.put_number(i128::from(places));
    }
}

#[cycle(put)]
fn put_exprs(out: &mut Text, exprs: &[Expr], fuel: u32) {
    let mut is_first = true;
    for value in exprs {
        put_separator(out, is_first);
        put_expr(out, value, fuel);
        is_first = false;
    }
    if !exprs.is_empty() {
        out.put("]");
    }
}

#[cycle(put)]
fn put_actuals(out: &mut Text, actuals: &[Actual], fuel: u32) {
    let mut is_first = true;
    for actual in actuals {
        put_separator(out, is_first);
        match actual {
            Actual::Expr(value) => put_expr(out, value, fuel),
            Actual::Chan(number) => {
                out.put("#");
                put_expr(out, number, fuel);
            }
        }
        is_first = false;
    }
    if !actuals.is_empty() {
        out.put("]");
    }
}

#[cycle(put)]
fn put_substring(out: &mut Text, target: &Target, first: &Expr, last: &Expr, fuel: u32) {
    out.put_bytes(target.name.bytes());
    put_exprs(out, target.subscripts.as_slice(), fuel);
    out.put("{");
    put_expr(out, first, fuel);
    out.put(":");
    put_expr(out, last, fuel);
    out.put("}");
}

#[cycle(put)]
fn put_primary(out: &mut Text, primary: &Primary, fuel: u32) {
    match primary {
        Primary::Numeral(numeral) => put_numeral(out, *numeral),
        Primary::Quoted(text) => {
            out.put("\"");
            out.put_bytes(text.bytes());
            out.put("\"");
        }
        Primary::Group(inner) => {
            out.put("<");
            put_expr(out, inner.get(), fuel);
            out.put(">");
        }
        Primary::Name(name, args) => {
            out.put_bytes(name.bytes());
            put_actuals(out, args.actuals.as_slice(), fuel);
        }
        Primary::Substring(target, first, last) => put_substring(
            out,
            target,
            first.get(),
            last.get(),
            fuel,
        ),
    }
}

#[cycle(put)]
fn put_factor(out: &mut Text, factor: &Factor, fuel: u32) {
    let exponents = factor.exponents.as_slice();
    put_opening(out, exponents.len());
    put_primary(out, &factor.base, fuel);
    for exponent in exponents {
        out.put("^");
        put_primary(out, exponent, fuel);
        out.put(")");
    }
}

fn factor_sign(sign: FactorSign) -> &'static str {
    match sign {
        FactorSign::Multiply => "*",
        FactorSign::Divide => "/",
    }
}

#[cycle(put)]
fn put_term(out: &mut Text, term: &Term, fuel: u32) {
    let rest = term.rest.as_slice();
    put_opening(out, rest.len());
    put_factor(out, &term.first, fuel);
    for (sign, factor) in rest {
        out.put(factor_sign(*sign));
        put_factor(out, factor, fuel);
        out.put(")");
    }
}

fn term_sign(sign: TermSign) -> &'static str {
    match sign {
        TermSign::Add => "+",
        TermSign::Subtract => "-",
        TermSign::Join => "&",
    }
}

#[cycle(put)]
fn put_signed(out: &mut Text, sign: Option<Sign>, term: &Term, fuel: u32) {
    match sign {
        Some(Sign::Plus) => out.put("(+"),
        Some(Sign::Minus) => out.put("(-"),
        None => {}
    }
    put_term(out, term, fuel);
    if sign.is_some() {
        out.put(")");
    }
}

#[cycle(put)]
fn put_expr(out: &mut Text, value: &Expr, fuel: u32) {
    if fuel == 0 {
        return;
    }
    let rest = value.rest.as_slice();
    put_opening(out, rest.len());
    put_signed(out, value.sign, value.first.get(), fuel - 1);
    for (sign, term) in rest {
        out.put(term_sign(*sign));
        put_term(out, term, fuel - 1);
        out.put(")");
    }
}

fn rel_text(rel: Rel) -> &'static str {
    match rel {
        Rel::Equal => "=",
        Rel::NotEqual => "<>",
        Rel::Less => "<",
        Rel::Greater => ">",
        Rel::AtMost => "<=",
        Rel::AtLeast => ">=",
    }
}

#[cycle(put_cond)]
fn put_test(out: &mut Text, test: &Test, fuel: u32) {
    if fuel == 0 {
        return;
    }
    match test {
        Test::Not(inner) => {
            out.put("not ");
            put_test(out, inner.get(), fuel - 1);
        }
        Test::Group(inner) => {
            out.put("{");
            put_cond(out, inner.get(), fuel - 1);
            out.put("}");
        }
        Test::Compare(left, rel, right) => {
            put_expr(out, left, 100);
            out.put(rel_text(*rel));
            put_expr(out, right, 100);
        }
    }
}

#[cycle(put_cond)]
fn put_conj(out: &mut Text, conj: &Conj, fuel: u32) {
    let rest = conj.rest.as_slice();
    if !rest.is_empty() {
        out.put("[");
    }
    put_test(out, &conj.first, fuel);
    for test in rest {
        out.put(" and ");
        put_test(out, test, fuel);
    }
    if !rest.is_empty() {
        out.put("]");
    }
}

#[cycle(put_cond)]
fn put_cond(out: &mut Text, cond: &Cond, fuel: u32) {
    let rest = cond.rest.as_slice();
    if !rest.is_empty() {
        out.put("[");
    }
    put_conj(out, &cond.first, fuel);
    for conj in rest {
        out.put(" or ");
        put_conj(out, conj, fuel);
    }
    if !rest.is_empty() {
        out.put("]");
    }
}

fn put_end(out: &mut Text, next: usize) {
    out.put(" ");
    out.put_number(next as i128);
}

/// The longest expression at the beginning of the line, and the number of its tokens.
///
/// Errors: `NotExpr` where there is none, and `Memory` where the line is too long, has no tokens or memory
/// runs out.
#[tactic(auto, using(bas_expr::proofs::TokenLaws::tokens_lie, bas_expr::proofs::TokenLaws::few_tokens))]
pub fn expr_of(alloc: Global, line: &[u8]) -> Result<(Expr, usize), ExprFault> {
    if line.len() > 4096 {
        return Err(ExprFault::Memory);
    }
    match tokens(alloc, line) {
        Ok(found) => expr(alloc, line, found.as_slice(), 0),
        Err(_) => Err(ExprFault::Memory),
    }
}

/// The longest condition at the beginning of the line, and the number of its tokens.
///
/// Errors: `NotExpr` where there is none, and `Memory` where the line is too long, has no tokens or memory
/// runs out.
#[tactic(auto, using(bas_expr::proofs::TokenLaws::tokens_lie, bas_expr::proofs::TokenLaws::few_tokens))]
pub fn cond_of(alloc: Global, line: &[u8]) -> Result<(Cond, usize), ExprFault> {
    if line.len() > 4096 {
        return Err(ExprFault::Memory);
    }
    match tokens(alloc, line) {
        Ok(found) => cond(alloc, line, found.as_slice(), 0),
        Err(_) => Err(ExprFault::Memory),
    }
}

fn put_fault(out: &mut Text, fault: ExprFault) {
    match fault {
        ExprFault::NotExpr { at: _ } => out.put("?"),
        ExprFault::Memory => out.put("no memory"),
    }
}

fn shown_expr(alloc: Global, line: &str) -> Text {
    let mut text = Text::new(alloc);
    match expr_of(alloc, line.as_bytes()) {
        Ok((value, next)) => {
            put_expr(&mut text, &value, 100);
            put_end(&mut text, next);
        }
        Err(fault) => put_fault(&mut text, fault),
    }
    text
}

fn shown_cond(alloc: Global, line: &str) -> Text {
    let mut text = Text::new(alloc);
    match cond_of(alloc, line.as_bytes()) {
        Ok((value, next)) => {
            put_cond(&mut text, &value, 100);
            put_end(&mut text, next);
        }
        Err(fault) => put_fault(&mut text, fault),
    }
    text
}

fn check_exprs(rt: &impl Abort, alloc: Global, cases: &[(&str, &str)]) {
    for (line, wanted) in cases {
        check_text(rt, line, &shown_expr(alloc, line), wanted);
    }
}

#[test]
fn operators_group_by_rank_and_from_the_left(rt: HostRuntime) {
    check_exprs(&rt, rt.alloc(), &OPERATORS);
}

#[test]
fn operands_stand_by_value(rt: HostRuntime) {
    check_exprs(&rt, rt.alloc(), &OPERANDS);
}

#[test]
fn names_have_arguments(rt: HostRuntime) {
    check_exprs(&rt, rt.alloc(), &LISTS);
}

#[test]
fn substrings_are_of_variables_and_elements(rt: HostRuntime) {
    check_exprs(&rt, rt.alloc(), &SUBSTRINGS);
}

#[test]
fn texts_have_their_longest_conditions(rt: HostRuntime) {
    for (line, wanted) in &CONDITIONS {
        check_text(&rt, line, &shown_cond(rt.alloc(), line), wanted);
    }
}

/// An operand in so many parentheses.
pub fn nested(alloc: Global, times: usize, operand: &str) -> Text {
    let mut text = Text::new(alloc);
    put_opening(&mut text, times);
    text.put(operand);
    for _ in 0..times {
        text.put(")");
    }
    text
}

fn shown_nested(alloc: Global, times: usize) -> Text {
    let text = nested(alloc, times, "A");
    shown_expr(alloc, text.as_str())
}

#[test]
fn parentheses_nest_64_deep(rt: HostRuntime) {
    assert!(rt; shown_nested(rt.alloc(), 64).as_str().ends_with(" 129"));
    check_text(&rt, "65 deep", &shown_nested(rt.alloc(), 65), "?");
}

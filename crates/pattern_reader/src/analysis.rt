//! Bottom-up evaluation of attributes over the syntax tree: the leaf, the object types that can
//! meet it, and the first refusal. Each node is visited once, so the analysis of a chain doesn't
//! repeat that of its operands.

ghost use Rattle.std.specs.Prelude.{◌≡◌, ◌↔◌, List, ℕ, IfOk};
ghost use Rattle.pattern_grammar.specs.Tree.{Comparison, test, all, any, compared, conjunction};
ghost use Rattle.pattern_grammar.specs.Tree.{operand};
ghost use Rattle.pattern_reader.specs.LeafMeaning.{IsNoAll, IsNoAny};
ghost use Rattle.pattern_reader.specs.Refusals.{HasRoot, first_token, IsRootless};
ghost use Rattle.pattern_reader.specs.Roots.{HasName};
ghost use Rattle.pattern_reader.specs.inner.Analysis.{IsOutcome, IsAnalysis};
ghost use Rattle.pattern_reader.specs.inner.Analysis.{IsChain, AreRootedOperands, AreAny};

use crate::ValueRefusal;
use crate::checks::test_of;
use crate::outcomes::{both, with_next};
use crate::roots::{common, either, is_none, of_name};
use flow_values::{Items, NoMemory};
use pattern_grammar::{ComparisonTree, Conjunction, Operand, TestTree};
use pattern_lexer::text_of;
use pattern_types::Leaf;
use std::alloc::Global;
use std::collections::BTreeSet;

/// The synthesized attributes of a comparison, computed once for each node of the syntax tree.
#[derive(Drop)]
pub(crate) struct Analysis<'a> {
    /// The byte offset of its first token.
    pub(crate) at: usize,
    /// The object types that can meet it.
    pub(crate) roots: BTreeSet<&'a str>,
    /// The leaf that it means, or its first refusal.
    pub(crate) leaf: Result<Leaf, ValueRefusal>,
}

/// The attributes of the operands of a chain so far.
#[derive(Drop)]
struct Chain<'a> {
    /// The byte offset of the first token.
    at: usize,
    /// The object types that can meet the chain.
    roots: BTreeSet<&'a str>,
    /// The leaves of the operands, or the first refusal.
    parts: Result<Items<Leaf>, ValueRefusal>,
}

/// Analyzes a test.
fn analyze_test<'a>(alloc: Global, text: &'a str, tree: &TestTree) -> Result<Analysis<'a>, NoMemory>
    ensures { IfOk result (IsAnalysis text.now (test tree.now)) }
{
    let roots = of_name(alloc, text_of(text, tree.path.root))?;
    let leaf = test_of(alloc, text, tree)?.map(|test| Leaf::Test(test));
    Ok(Analysis {
        at: tree.first.from,
        roots,
        leaf,
    })
}

/// A chain of one operand.
fn chain_of<'a>(alloc: Global, first: Analysis<'a>) -> Result<Chain<'a>, NoMemory>
    ensures all { IfOk result (λ chain. (text : List ℕ) (c : Comparison) → IsNoAll c
        → IsAnalysis text c first.entry → IsChain AreRootedOperands text c chain) }
    ensures any { IfOk result (λ chain. (text : List ℕ) (c : Comparison) → IsNoAny c
        → IsAnalysis text c first.entry → IsChain AreAny text c chain) }
{
    let none = Ok(Items::new(alloc));
    let parts = with_next(none, first.leaf)?;
    Ok(Chain {
        at: first.at,
        roots: first.roots,
        parts,
    })
}

/// Checks that comparisons joined by `AND` have an object type in common. `NoCommonRoot` otherwise.
fn rooted(at: usize, roots: &BTreeSet<&str>) -> Result<(), ValueRefusal>
    ensures { (text : List ℕ) (c d : Comparison) → at ≡ (first_token c).from
        → ((root : List ℕ) → HasName roots.now root ↔ (HasRoot text c root × HasRoot text d root))
        → IsOutcome (λ _. (root : List ℕ) × (HasRoot text c root × HasRoot text d root))
        (IsRootless text c d) result }
{
    if is_none(roots) {
        return Err(ValueRefusal::NoCommonRoot { at });
    }
    Ok(())
}

/// Appends an operand of `AND`, which must have an object type in common with the chain.
fn with_all<'a>(alloc: Global, chain: Chain<'a>, next: Analysis<'a>) -> Result<Chain<'a>, NoMemory>
    ensures { IfOk result (λ more. (text : List ℕ) (c d : Comparison)
        → IsChain AreRootedOperands text c chain.entry
        → IsAnalysis text d next.entry → IsChain AreRootedOperands text (all c d) more) }
{
    let at = chain.at;
    let parts = with_next(chain.parts, next.leaf)?;
    let roots = common(alloc, &chain.roots, &next.roots)?;
    let parts = both(rooted(at, &roots), parts).map(|(_, parts)| parts);
    Ok(Chain { at, roots, parts })
}

/// Appends an operand of `OR`.
fn with_any<'a>(chain: Chain<'a>, next: Analysis<'a>) -> Result<Chain<'a>, NoMemory>
    ensures { IfOk result (λ more. (text : List ℕ) (c d : Comparison)
        → IsChain AreAny text c chain.entry
        → IsAnalysis text d next.entry → IsChain AreAny text (any c d) more) }
{
    let at = chain.at;
    let parts = with_next(chain.parts, next.leaf)?;
    let roots = either(chain.roots, next.roots)?;
    Ok(Chain { at, roots, parts })
}

/// The conjunction of a chain of two operands or more.
fn all_of<'a>(chain: Chain<'a>) -> Analysis<'a>
    ensures { (text : List ℕ) (c d : Comparison)
        → IsChain AreRootedOperands text (all c d) chain.entry
        → IsAnalysis text (all c d) result }
{
    Analysis {
        at: chain.at,
        roots: chain.roots,
        leaf: chain.parts.map(|parts| Leaf::All(parts)),
    }
}

/// The disjunction of a chain of two operands or more.
fn any_of<'a>(chain: Chain<'a>) -> Analysis<'a>
    ensures { (text : List ℕ) (c d : Comparison) → IsChain AreAny text (any c d) chain.entry
        → IsAnalysis text (any c d) result }
{
    Analysis {
        at: chain.at,
        roots: chain.roots,
        leaf: chain.parts.map(|parts| Leaf::Any(parts)),
    }
}

/// Analyzes an operand.
#[cycle(analyze)]
fn analyze_operand<'a>(
    alloc: Global,
    text: &'a str,
    tree: &Operand,
) -> Result<Analysis<'a>, NoMemory>
    ensures { IfOk result (IsAnalysis text.now (operand tree.now)) }
{
    match tree {
        Operand::Test(test) => analyze_test(alloc, text, test),
        Operand::Group(round, inside) => {
            let analysis = analyze(alloc, text, inside)?;
            Ok(Analysis {
                at: round.from,
                ..analysis
            })
        }
    }
}

/// Analyzes a conjunction of one operand or more.
#[cycle(analyze)]
fn analyze_conjunction<'a>(
    alloc: Global,
    text: &'a str,
    tree: &Conjunction,
) -> Result<Analysis<'a>, NoMemory>
    ensures { IfOk result (IsAnalysis text.now (conjunction tree.now)) }
{
    let first = analyze_operand(alloc, text, &tree.first)?;
    if tree.others.is_empty() {
        return Ok(first);
    }
    let mut chain = chain_of(alloc, first)?;
    for other in tree.others.as_slice() {
        let next = analyze_operand(alloc, text, other)?;
        chain = with_all(alloc, chain, next)?;
    }
    Ok(all_of(chain))
}

/// Analyzes a comparison expression: one conjunction or more, joined by `OR`.
#[cycle(analyze)]
pub(crate) fn analyze<'a>(
    alloc: Global,
    text: &'a str,
    tree: &ComparisonTree,
) -> Result<Analysis<'a>, NoMemory>
    ensures { IfOk result (IsAnalysis text.now (compared tree.now)) }
{
    let first = analyze_conjunction(alloc, text, &tree.first)?;
    if tree.others.is_empty() {
        return Ok(first);
    }
    let mut chain = chain_of(alloc, first)?;
    for other in tree.others.as_slice() {
        let next = analyze_conjunction(alloc, text, other)?;
        chain = with_any(chain, next)?;
    }
    Ok(any_of(chain))
}

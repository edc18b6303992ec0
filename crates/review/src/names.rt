//! The names that policies speak of, and those that a store has.
ghost use Rattle.std.specs.Prelude.{◌≡◌, ◌++◌, ◌∷◌, [], IfOk, OnOk, map};
ghost use Rattle.std.specs.List.{flat_map};
ghost use Rattle.review.specs.declared.label.Label.TheVariants.{Named, Others};
ghost use Rattle.review.specs.Names.{classes_in, clerk_of, clerks_in, labels, maildrops_in};
ghost use Rattle.review.specs.Names.{name_in, nobody, put_names};

use crate::changes::Names;
use crate::label::Label;
use creds::Name;
use policy::{Clerks, Group, Pattern, Policy, Rule};
use std::alloc::{AllocError, Global};
use std::collections::BTreeSet;
use std::marker::Model;

/// The clerks and the maildrops that a store has, in any order.
#[derive(Drop)]
pub struct Kept {
    /// The names of its clerks.
    pub clerks: Vec<Name>,
    /// The names of its maildrops.
    pub maildrops: Vec<Name>,
}

impl Model for Kept {
    ghost use Rattle.review.specs.Names.{Kept};

    ghost Value = { Kept };

    ghost view = { λ k. record { clerks = k.clerks.items; maildrops = k.maildrops.items } };
}

impl Kept {
    /// Those of no store: no clerk and no maildrop.
    pub fn nobody(alloc: Global) -> Kept
        ensures { result ≡ nobody }
    {
        Kept {
            clerks: Vec::new(alloc),
            maildrops: Vec::new(alloc),
        }
    }
}

fn add_clerk(names: &mut BTreeSet<Name>, clerks: &Clerks) -> Result<(), AllocError>
    ensures { OnOk result (names.new.keys ≡ put_names names.old.keys (clerk_of clerks.now)) }
{
    if let Clerks::Is(name) = clerks {
        names.insert(*name)?;
    }
    Ok(())
}

fn add_pattern(names: &mut BTreeSet<Name>, pattern: &Pattern) -> Result<(), AllocError>
    ensures { OnOk result (names.new.keys ≡ put_names names.old.keys (name_in pattern.now)) }
{
    if let Pattern::Is(name) = pattern {
        names.insert(*name)?;
    }
    Ok(())
}

fn add_names(names: &mut BTreeSet<Name>, more: &[Name]) -> Result<(), AllocError>
    ensures { OnOk result (names.new.keys ≡ put_names names.old.keys more.now) }
{
    for name in more {
        names.insert(*name)?;
    }
    Ok(())
}

fn add_rules_clerks(names: &mut BTreeSet<Name>, rules: &[Rule]) -> Result<(), AllocError>
    ensures { OnOk result (names.new.keys
        ≡ put_names names.old.keys (flat_map (λ r. clerk_of r.clerk) rules.now)) }
{
    for rule in rules {
        add_clerk(names, &rule.clerk)?;
    }
    Ok(())
}

fn add_members(names: &mut BTreeSet<Name>, groups: &[Group]) -> Result<(), AllocError>
    ensures { OnOk result (names.new.keys
        ≡ put_names names.old.keys (flat_map (λ g. g.members) groups.now)) }
{
    for group in groups {
        add_names(names, group.members())?;
    }
    Ok(())
}

fn add_maildrops(names: &mut BTreeSet<Name>, rules: &[Rule]) -> Result<(), AllocError>
    ensures { OnOk result (names.new.keys
        ≡ put_names names.old.keys (flat_map (λ r. name_in r.maildrop) rules.now)) }
{
    for rule in rules {
        add_pattern(names, &rule.maildrop)?;
    }
    Ok(())
}

fn add_classes(names: &mut BTreeSet<Name>, rules: &[Rule]) -> Result<(), AllocError>
    ensures { OnOk result (names.new.keys
        ≡ put_names names.old.keys (flat_map (λ r. name_in r.class) rules.now)) }
{
    for rule in rules {
        add_pattern(names, &rule.class)?;
    }
    Ok(())
}

fn add_clerks(names: &mut BTreeSet<Name>, policy: &Policy) -> Result<(), AllocError>
    ensures { OnOk result (names.new.keys ≡ put_names names.old.keys (clerks_in policy.now)) }
{
    add_rules_clerks(names, policy.rules())?;
    add_members(names, policy.groups())
}

/// The labels of the names, and after them that of all others.
fn labels_of(alloc: Global, names: &BTreeSet<Name>) -> Result<Vec<Label>, AllocError>
    ensures { IfOk result (λ labels. labels.items ≡ map Named names.now.keys ++ Others ∷ []) }
{
    let mut labels = Vec::new(alloc);
    for name in names.iter() {
        labels.push(Label::Named(*name))?;
    }
    labels.push(Label::Others)?;
    Ok(labels)
}

fn clerks_of(
    alloc: Global,
    old: &Policy,
    new: &Policy,
    kept: &[Name],
) -> Result<Vec<Label>, AllocError>
    ensures { IfOk result (λ clerks. clerks.items
        ≡ labels (clerks_in old.now ++ clerks_in new.now ++ kept.now)) }
{
    let mut names = BTreeSet::new(alloc);
    add_clerks(&mut names, old)?;
    add_clerks(&mut names, new)?;
    add_names(&mut names, kept)?;
    labels_of(alloc, &names)
}

fn maildrops_of(
    alloc: Global,
    old: &Policy,
    new: &Policy,
    kept: &[Name],
) -> Result<Vec<Label>, AllocError>
    ensures { IfOk result (λ maildrops. maildrops.items
        ≡ labels (maildrops_in old.now ++ maildrops_in new.now ++ kept.now)) }
{
    let mut names = BTreeSet::new(alloc);
    add_maildrops(&mut names, old.rules())?;
    add_maildrops(&mut names, new.rules())?;
    add_names(&mut names, kept)?;
    labels_of(alloc, &names)
}

fn classes_of(alloc: Global, old: &Policy, new: &Policy) -> Result<Vec<Label>, AllocError>
    ensures { IfOk result (λ classes. classes.items
        ≡ labels (classes_in old.now ++ classes_in new.now)) }
{
    let mut names = BTreeSet::new(alloc);
    add_classes(&mut names, old.rules())?;
    add_classes(&mut names, new.rules())?;
    labels_of(alloc, &names)
}

/// The names that two policies speak of and that a store has: of clerks those in rules, the members
/// of groups and the store's, of maildrops those in rules and the store's, of classes those in
/// rules. Each stands once, in the order of its octets, and the last of each kind stands for all
/// others. An `Err` is want of memory.
pub fn names_of(alloc: Global, old: &Policy, new: &Policy, kept: &Kept) -> Result<Names, AllocError>
    ensures clerks { IfOk result (λ names. names.clerks.items
        ≡ labels (clerks_in old.now ++ clerks_in new.now ++ kept.now.clerks)) }
    ensures maildrops { IfOk result (λ names. names.maildrops.items
        ≡ labels (maildrops_in old.now ++ maildrops_in new.now ++ kept.now.maildrops)) }
    ensures classes { IfOk result (λ names. names.classes.items
        ≡ labels (classes_in old.now ++ classes_in new.now)) }
{
    let clerks = clerks_of(alloc, old, new, &kept.clerks)?;
    let maildrops = maildrops_of(alloc, old, new, &kept.maildrops)?;
    let classes = classes_of(alloc, old, new)?;
    Ok(Names {
        clerks,
        maildrops,
        classes,
    })
}

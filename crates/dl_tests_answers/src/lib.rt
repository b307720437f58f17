// Tests of what an answer comes from: terms, hierarchies, normal axioms, tree witnesses, joins, denials and models.
#![tactic(auto)]

#[cfg(test)]
mod deny;
#[cfg(test)]
mod hier;
#[cfg(test)]
mod join;
#[cfg(test)]
mod join_order;
#[cfg(test)]
mod models;
#[cfg(test)]
mod normal;
#[cfg(test)]
mod plain_join;
#[cfg(test)]
mod reach;
#[cfg(test)]
mod terms;
#[cfg(test)]
mod tree;

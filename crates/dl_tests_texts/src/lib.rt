// Tests of what reads and writes texts: files and sinks, words, names, ontologies, data, queries, streams and outcomes.
#![tactic(auto)]

#[cfg(test)]
mod io;
#[cfg(test)]
mod lex;
#[cfg(test)]
mod names;
#[cfg(test)]
mod ontology;
#[cfg(test)]
mod outcomes;
#[cfg(test)]
mod owl;
#[cfg(test)]
mod owl_faults;
#[cfg(test)]
mod query;
#[cfg(test)]
mod streams;
#[cfg(test)]
mod triples;

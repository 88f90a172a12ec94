//! Pairs, records, references and cuts.
mod children;
mod cuts;
mod fronts;
mod keys;
mod pairs;
mod record_files;
mod references;
mod spellings;

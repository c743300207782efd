mod document_parts;
mod filling;
mod lines;
mod pickles;
mod plain_trees;
mod small_skeletons;
mod trees;

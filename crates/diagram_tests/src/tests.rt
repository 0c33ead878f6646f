mod circuits;
mod classes;
mod diagrams;
mod drawings;
mod extraction;
mod few_rows;
mod like_forms;
mod translations;

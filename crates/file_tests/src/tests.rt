mod diagram_files;
mod graph_files;
mod written_graphs;

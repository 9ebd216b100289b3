//! One short caller of each library, as it is usually called. Each is proved with no proof file, and quoted by the README
//! of its library.
#![tactic(auto)]

pub mod calling_archive_arguments;
pub mod calling_archive_client;
pub mod calling_archive_commands;
pub mod calling_archive_history;
pub mod calling_archive_host;
pub mod calling_archive_keepers;
pub mod calling_archive_log;
pub mod calling_archive_memory;
pub mod calling_archive_pace;
pub mod calling_archive_progress;
pub mod calling_archive_runs;
pub mod calling_archive_server;
pub mod calling_archive_serving;
pub mod calling_archive_sockets;
pub mod calling_archive_sync;
pub mod calling_archive_table;
pub mod calling_archive_wire;
pub mod calling_archive_world;
pub mod calling_byte_output;
pub mod calling_command_line;
pub mod calling_file_commands;
pub mod calling_folders;
pub mod calling_host_serving;
pub mod calling_refusing;
pub mod calling_show_commands;
pub mod calling_system_files;
pub mod calling_tftp_ends;
pub mod calling_tftp_packet;
pub mod calling_tws_best;
pub mod calling_tws_compare;
pub mod calling_tws_file;
pub mod calling_tws_moves;
pub mod calling_tws_pages;
pub mod calling_tws_reader;
pub mod calling_tws_tables;
pub mod calling_tws_tool;
pub mod calling_web_answers;
pub mod calling_web_arena;

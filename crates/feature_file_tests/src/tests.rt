mod found_files;
mod missing_scenarios;
